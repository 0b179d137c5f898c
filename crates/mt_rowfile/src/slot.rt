ghost use Rattle.std.specs.Prelude.{◌≡◌, ◌≢◌, ◌↔◌, ◌≤◌, ◌+◌, ◌∷◌, ◌++◌, IsTrue, IfOk, OnOk, IsErrOf, length, slice_index};
ghost use Rattle.byteorder.specs.Endian.{little_bytes};
ghost use Rattle.mt_rowfile.specs.Layouts.{IsLayout, IsOfRows, head_width, slot_width};
ghost use Rattle.mt_rowfile.specs.Slots.{FitsLayout, IsMark, IsSlot, base_at, chunk_at, IsReadable, head_of, middle_bytes, row_at, slot_bytes, slot_of};

use crate::body::check_body;
use crate::fields::{check_fields, read_fields, write_fields};
use crate::layout::{Head, Layout, head_width, slot_width};
use byteorder::{ByteOrder, LittleEndian};
use mt_list::{Duplicate, List};
use mt_value::Row;
use std::alloc::{AllocError, Global};
use thiserror::Error;

/// The mark of a slot that is not in use.
pub(crate) const FREE: u8 = 0;

/// The mark of a slot whose row is visible.
const VISIBLE: u8 = 1;

/// The mark of a slot whose row is in the trashcan.
const TRASHED: u8 = 2;

/// What a slot in use says: its mark, the tenant, the base table and the chunk, which are 0 in a
/// conventional slot, the Row, and the values of its fields.
#[derive(Debug, Drop)]
pub struct SlotRow {
    pub mark: u8,
    pub tenant: u32,
    pub base: u32,
    pub chunk: u32,
    pub row: u64,
    pub values: Row,
}

impl Duplicate for SlotRow {
    fn copy(&self, _alloc: Global) -> Result<SlotRow, AllocError> {
        Ok(SlotRow {
            mark: self.mark,
            tenant: self.tenant,
            base: self.base,
            chunk: self.chunk,
            row: self.row,
            values: self.values.copy()?,
        })
    }
}

/// Whose a slot in use is: the tenant, the base table and the chunk, which are 0 in a conventional
/// slot, and the Row.
#[derive(Clone, Copy, Debug, PartialEq, Eq)]
pub struct SlotHead {
    pub tenant: u32,
    pub base: u32,
    pub chunk: u32,
    pub row: u64,
}

/// Slots, in order.
pub type SlotRows = List<SlotRow>;

/// The bytes of a slot of the catalogue behind its mark.
pub type CatBody = List<u8>;

/// Why a slot was not read.
#[derive(Clone, Copy, Debug, PartialEq, Eq, Error)]
pub enum SlotFault {
    /// The bytes are no slot.
    #[error("bad slot")]
    Bad,
    #[error("out of memory")]
    Memory,
}

impl From<AllocError> for SlotFault {
    ghost use Rattle.std.specs.Prelude.{◌≡◌};
    ghost use Rattle.mt_rowfile.specs.declared.slot.SlotFault.TheVariants as faults;

    ghost from_gives = { λ _ fault. fault ≡ faults.Memory };

    fn from(_: AllocError) -> SlotFault {
        SlotFault::Memory
    }
}

/// Whether the bytes are a slot: one that is free, or one that can be read. It takes no memory.
pub fn check_slot(layout: &Layout, bytes: &[u8]) -> bool
    requires { IsLayout layout.now }
    ensures { IsTrue result ↔ IsSlot layout.now bytes.now }
{
    if bytes.len() != slot_width(layout) {
        return false;
    }
    if bytes[0] == FREE {
        return true;
    }
    check_mark(layout.head, bytes[0]) && check_rest(layout, bytes)
}

/// Whether the mark is one of a slot in use.
fn check_mark(head: Head, mark: u8) -> bool
    ensures { IsTrue result ↔ IsMark head mark }
{
    match head {
        Head::Conventional => mark == VISIBLE || mark == TRASHED,
        Head::Catalogue(_) | Head::Chunk => mark == VISIBLE,
    }
}

/// Whether what stands behind the mark can be read.
fn check_rest(layout: &Layout, bytes: &[u8]) -> bool
    requires layout { IsLayout layout.now }
    requires width { length bytes.now ≡ slot_width layout.now }
    ensures { IsTrue result ↔ IsReadable layout.now layout.now.head bytes.now }
{
    match layout.head {
        Head::Catalogue(table) => check_body(table, &bytes[1..]),
        Head::Conventional | Head::Chunk => {
            check_fields(layout.kinds.as_slice(), &bytes[head_width(layout.head)..])
        }
    }
}

/// Whose a slot in use is, whatever its mark and its fields hold. It takes no memory.
pub fn read_head(layout: &Layout, bytes: &[u8]) -> SlotHead
    requires layout { IsLayout layout.now }
    requires rows { IsOfRows layout.now.head }
    requires width { length bytes.now ≡ slot_width layout.now }
    ensures { result ≡ head_of (slot_of layout.now bytes.now) }
{
    prove!(head_width(layout.head) <= bytes.len());
    SlotHead {
        tenant: LittleEndian::read_u32(&bytes[1..]),
        base: base_at(layout.head, bytes),
        chunk: chunk_at(layout.head, bytes),
        row: row_at(layout.head, bytes),
    }
}

/// What a slot in use says; `Bad` exactly where the bytes are no slot, `Memory` for want of memory.
pub fn read_slot(alloc: Global, layout: &Layout, bytes: &[u8]) -> Result<SlotRow, SlotFault>
    requires layout { IsLayout layout.now }
    requires rows { IsOfRows layout.now.head }
    requires used { slice_index bytes.now 0 ≢ 0 }
    ensures slot { IfOk result (λ slot. slot ≡ slot_of layout.now bytes.now) }
    ensures read { OnOk result (IsSlot layout.now bytes.now) }
    ensures bad { IsErrOf result SlotFault.Bad ↔ (IsSlot layout.now bytes.now → ⊥) }
{
    match read_once(alloc, layout, bytes) {
        Ok(slot) => Ok(slot),
        // A field behind the one that memory was wanted for may spell no value.
        Err(SlotFault::Memory) if check_slot(layout, bytes) => Err(SlotFault::Memory),
        Err(_) => Err(SlotFault::Bad),
    }
}

/// What a slot in use says, with `Bad` only where the bytes are no slot.
fn read_once(alloc: Global, layout: &Layout, bytes: &[u8]) -> Result<SlotRow, SlotFault>
    requires layout { IsLayout layout.now }
    requires rows { IsOfRows layout.now.head }
    requires used { slice_index bytes.now 0 ≢ 0 }
    ensures slot { IfOk result (λ slot. slot ≡ slot_of layout.now bytes.now) }
    ensures read { OnOk result (IsSlot layout.now bytes.now) }
    ensures bad { IsErrOf result SlotFault.Bad → IsSlot layout.now bytes.now → ⊥ }
{
    if bytes.len() != slot_width(layout) || !check_mark(layout.head, bytes[0]) {
        return Err(SlotFault::Bad);
    }
    let values = read_fields(
        alloc,
        layout.kinds.as_slice(),
        &bytes[head_width(layout.head)..],
    )?;
    let head = read_head(layout, bytes);
    Ok(SlotRow {
        mark: bytes[0],
        tenant: head.tenant,
        base: head.base,
        chunk: head.chunk,
        row: head.row,
        values,
    })
}

/// The base table that a slot names, 0 in a conventional one.
fn base_at(head: Head, bytes: &[u8]) -> u32
    requires { head_width head ≤ length bytes.now }
    ensures { result ≡ base_at head bytes.now }
{
    match head {
        Head::Chunk => LittleEndian::read_u32(&bytes[5..]),
        Head::Catalogue(_) | Head::Conventional => 0,
    }
}

/// The chunk that a slot names, 0 in a conventional one.
fn chunk_at(head: Head, bytes: &[u8]) -> u32
    requires { head_width head ≤ length bytes.now }
    ensures { result ≡ chunk_at head bytes.now }
{
    match head {
        Head::Chunk => LittleEndian::read_u32(&bytes[9..]),
        Head::Catalogue(_) | Head::Conventional => 0,
    }
}

/// The Row of a slot.
fn row_at(head: Head, bytes: &[u8]) -> u64
    requires rows { IsOfRows head }
    requires width { head_width head ≤ length bytes.now }
    ensures { result ≡ row_at head bytes.now }
{
    match head {
        Head::Chunk => LittleEndian::read_u64(&bytes[13..]),
        Head::Catalogue(_) | Head::Conventional => LittleEndian::read_u64(&bytes[5..]),
    }
}

/// Writes the slot. It takes no memory.
pub fn write_slot(layout: &Layout, slot: &SlotRow, out: &mut [u8])
    requires layout { IsLayout layout.now }
    requires rows { IsOfRows layout.now.head }
    requires fits { FitsLayout layout.now slot.now }
    requires width { length out.old ≡ slot_width layout.now }
    ensures { out.new ≡ slot_bytes layout.now slot.now }
{
    let (front, fields) = out.split_at_mut(head_width(layout.head));
    write_head(layout.head, slot, front);
    write_fields(layout.kinds.as_slice(), slot.values.as_slice(), fields);
}

/// Writes what stands in front of the fields.
fn write_head(head: Head, slot: &SlotRow, out: &mut [u8])
    requires rows { IsOfRows head }
    requires width { length out.old ≡ head_width head }
    ensures { out.new ≡ slot.now.mark ∷ ((little_bytes 4 slot.now.tenant ++ middle_bytes head slot.now) ++ little_bytes 8 slot.now.row) }
{
    let (mark, rest) = out.split_at_mut(1);
    mark[0] = slot.mark;
    let (tenant, rest) = rest.split_at_mut(4);
    LittleEndian::write_u32(tenant, slot.tenant);
    let middle_width = rest.len() - 8;
    let (middle, row) = rest.split_at_mut(middle_width);
    write_middle(head, slot, middle);
    LittleEndian::write_u64(row, slot.row);
}

/// Writes what stands between the tenant and the Row.
fn write_middle(head: Head, slot: &SlotRow, out: &mut [u8])
    requires rows { IsOfRows head }
    requires width { length out.old + 13 ≡ head_width head }
    ensures { out.new ≡ middle_bytes head slot.now }
{
    if let Head::Chunk = head {
        let (base, chunk) = out.split_at_mut(4);
        LittleEndian::write_u32(base, slot.base);
        LittleEndian::write_u32(chunk, slot.chunk);
    }
}
