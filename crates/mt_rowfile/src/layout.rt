ghost use Rattle.std.specs.Prelude.{◌≡◌, ◌≤◌, ◌*◌, ◌++◌, length, replicate, IfOk, OnOk};
ghost use Rattle.mt_codec.specs.declared.field.FieldKind.TheVariants.{Int, Text};
ghost use Rattle.mt_codec.specs.Fields.{width_of};
ghost use Rattle.mt_rowfile.specs.Layouts.{IsLayout, body_width, chunk_kinds, chunk_layout, fields_width, head_width, slot_width, slots_per_page};

use mt_codec::{FieldKind, width};
use mt_list::List;
use std::alloc::{AllocError, Global};

/// The bytes of a page behind its head.
const PAGE_BODY: usize = 4088;

/// How many bytes a text in a chunk has at most.
const CHUNK_TEXT: u8 = 120;

/// The kinds of the fields of a slot, in order.
pub type FieldKinds = List<FieldKind>;

/// How the slots of a physical table begin: those of the table of the catalogue with this number,
/// from 8 to 13; those of a conventional table; or those of a chunk table.
#[derive(Clone, Copy, Debug, PartialEq, Eq)]
pub enum Head {
    Catalogue(u8),
    Conventional,
    Chunk,
}

/// How the slots of a physical table are laid out: how they begin, and their fields in order.
#[derive(Debug, Drop)]
pub struct Layout {
    pub head: Head,
    pub kinds: FieldKinds,
}

/// The bytes of a slot of the catalogue behind its mark.
fn body_width(table: u8) -> usize
    ensures width { result ≡ body_width table }
    ensures some { 8 ≤ result }
    ensures short { result ≤ 44 }
{
    match table {
        8 => 40,
        9 => 44,
        10 => 8,
        11 => 34,
        _ => 16,
    }
}

/// The bytes in front of the fields.
pub(crate) fn head_width(head: Head) -> usize
    ensures width { result ≡ head_width head }
    ensures some { 9 ≤ result }
    ensures short { result ≤ 45 }
{
    match head {
        Head::Catalogue(table) => 1 + body_width(table),
        Head::Conventional => 13,
        Head::Chunk => 21,
    }
}

/// The bytes of the fields.
fn fields_width(kinds: &[FieldKind]) -> usize
    requires { length kinds.now ≤ 4096 }
    ensures width { result ≡ fields_width kinds.now }
    ensures short { result ≤ 258 * length kinds.now }
{
    let mut sum = 0;
    for kind in kinds {
        sum += width(*kind);
    }
    sum
}

/// The bytes of a slot.
pub fn slot_width(layout: &Layout) -> usize
    requires { IsLayout layout.now }
    ensures width { result ≡ slot_width layout.now }
    ensures some { 9 ≤ result }
{
    head_width(layout.head) + fields_width(layout.kinds.as_slice())
}

/// How many slots a page has.
pub fn slots_per_page(layout: &Layout) -> usize
    requires { IsLayout layout.now }
    ensures { result ≡ slots_per_page layout.now }
{
    PAGE_BODY / slot_width(layout)
}

/// How many integers and how many texts a chunk has, by its table.
fn chunk_counts(table: u32) -> (usize, usize)
    requires from { 1 ≤ table }
    requires upto { table ≤ 6 }
    ensures kinds { replicate result.0 Int ++ replicate result.1 (Text 120) ≡ chunk_kinds table }
{
    match table {
        1 => (1, 0),
        2 => (0, 1),
        3 => (1, 1),
        4 => (4, 0),
        5 => (2, 2),
        _ => (4, 4),
    }
}

/// Adds so many fields of one kind. `AllocError` is want of memory.
fn push_kinds(kinds: &mut FieldKinds, kind: FieldKind, count: usize) -> Result<(), AllocError>
    ensures { OnOk result (kinds.new ≡ kinds.old ++ replicate count kind) }
{
    for _i in 0..count {
        kinds.push(kind)?;
    }
    Ok(())
}

/// The layout of a chunk table: integers first, and texts of 120 bytes. `AllocError` is want of memory.
pub fn chunk_layout(alloc: Global, table: u32) -> Result<Layout, AllocError>
    requires from { 1 ≤ table }
    requires upto { table ≤ 6 }
    ensures layout { IfOk result (λ layout. layout ≡ chunk_layout table) }
    ensures sound { IfOk result (λ layout. IsLayout layout) }
{
    let (integers, texts) = chunk_counts(table);
    let mut kinds = List::new(alloc);
    push_kinds(&mut kinds, FieldKind::Int, integers)?;
    push_kinds(&mut kinds, FieldKind::Text(CHUNK_TEXT), texts)?;
    Ok(Layout {
        head: Head::Chunk,
        kinds,
    })
}
