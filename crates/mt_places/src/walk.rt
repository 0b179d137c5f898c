// The slots of one page, one after another.
ghost use Rattle.std.specs.Prelude.{◌≡◌, ◌<◌, ◌≤◌, ◌*◌, ◌^◌, ℕ, length, IfOk, IsTrue, OnOk, Some};
ghost use Rattle.mt_rowfile.specs.Layouts.{IsLayout, IsOfRows, slot_width};
ghost use Rattle.mt_rowfile.specs.Slots.{slot_of};
ghost use Rattle.mt_physplan.specs.Keys.{key_in};
ghost use Rattle.mt_tables.specs.Pages.{slot_position};
ghost use Rattle.mt_tables.specs.Plan.{sought, with_place};
ghost use Rattle.mt_tables.specs.Rows.{body_in, is_of_catalogue, row_with};
ghost use Rattle.mt_places.specs.Held.{offered};
ghost use Rattle.mt_places.specs.Walked.{free_by, positions_by, slots_by};

use crate::body_places::BodyPlaces;
use crate::row_places::RowPlaces;
use crate::table_places::TablePlaces;
use mt_physplan::Key;
use mt_rowfile::{Head, Layout, read_head, slot_width, slots_per_page};
use std::alloc::{AllocError, Global};

/// The bytes in front of the slots of a page.
const PAGE_HEAD: usize = 8;

/// The bytes of a page.
const PAGE_SIZE: u64 = 4096;

/// The mark of a slot that is not in use.
const FREE: u8 = 0;

/// Where the slot with this number in a page begins.
fn slot_position(width: usize, page: u64, number: usize) -> u64
    requires page { page < 2 ^ 28 }
    requires within { width * number ≤ 4096 }
    ensures { result ≡ slot_position width page number }
{
    PAGE_SIZE * page + (PAGE_HEAD + width * number) as u64
}

/// Whose row a slot in use of a table holds.
fn key_at(layout: &Layout, table: u32, slot: &[u8]) -> Key
    requires layout { IsLayout layout.now }
    requires rows { IsOfRows layout.now.head }
    requires width { length slot.now ≡ slot_width layout.now }
    ensures { result ≡ key_in table (slot_of layout.now slot.now) }
{
    let head = read_head(layout, slot);
    Key {
        table,
        tenant: head.tenant,
        base: head.base,
        chunk: head.chunk,
        row: head.row,
    }
}

/// Offers the free slots of a page, whatever table it belongs to. `AllocError` is want of memory.
pub(crate) fn offer_free(
    places: &mut TablePlaces,
    layout: &Layout,
    page: u64,
    bytes: &[u8; 4096],
) -> Result<(), AllocError>
    requires layout { IsLayout layout.now }
    requires page { page < 2 ^ 28 }
    requires few { length places.old.free ≤ places.old.wanted }
    ensures { OnOk result ((table : ℕ) → places.new ≡ offered (free_by layout.now table page bytes.now) places.old) }
{
    let width = slot_width(layout);
    let mut rest = &bytes[PAGE_HEAD..];
    let count = slots_per_page(layout);
    for number in 0..count {
        let (slot, behind) = rest.split_at(width);
        if slot[0] == FREE {
            places.offer(slot_position(width, page, number))?;
        }
        rest = behind;
    }
    Ok(())
}

/// Says of the rows that are asked for which of them stand in a page, and where. A page of the
/// catalogue has none.
pub(crate) fn look_for_all_rows(
    rows: &mut RowPlaces,
    layout: &Layout,
    table: u32,
    page: u64,
    bytes: &[u8; 4096],
)
    requires layout { IsLayout layout.now }
    requires page { page < 2 ^ 28 }
    ensures { rows.new ≡ sought (row_with (Some layout.now)) (slots_by layout.now table page bytes.now) rows.old }
{
    match layout.head {
        Head::Conventional | Head::Chunk => look_for_rows(rows, layout, table, page, bytes),
        Head::Catalogue(_) => {}
    }
}

/// The same of a page of a table that is not of the catalogue.
fn look_for_rows(rows: &mut RowPlaces, layout: &Layout, table: u32, page: u64, bytes: &[u8; 4096])
    requires layout { IsLayout layout.now }
    requires rows { IsOfRows layout.now.head }
    requires page { page < 2 ^ 28 }
    ensures { rows.new ≡ sought (row_with (Some layout.now)) (slots_by layout.now table page bytes.now) rows.old }
{
    let width = slot_width(layout);
    let mut rest = &bytes[PAGE_HEAD..];
    let count = slots_per_page(layout);
    for number in 0..count {
        let (slot, behind) = rest.split_at(width);
        let position = slot_position(width, page, number);
        look_for_row(rows, layout, table, position, slot);
        rest = behind;
    }
}

/// Says where the row of a slot stands, where it is asked for.
fn look_for_row(rows: &mut RowPlaces, layout: &Layout, table: u32, position: u64, slot: &[u8])
    requires layout { IsLayout layout.now }
    requires rows { IsOfRows layout.now.head }
    requires width { length slot.now ≡ slot_width layout.now }
    ensures { rows.new ≡ with_place (row_with (Some layout.now) (table, slot.now)) position rows.old }
{
    if slot[0] != FREE {
        rows.place(&key_at(layout, table, slot), Some(position));
    }
}

/// Says of the slots of the catalogue that are asked for which of them stand in a page, and where. A
/// page of another table has none.
pub(crate) fn look_for_all_bodies(
    bodies: &mut BodyPlaces,
    layout: &Layout,
    table: u32,
    page: u64,
    bytes: &[u8; 4096],
)
    requires layout { IsLayout layout.now }
    requires page { page < 2 ^ 28 }
    ensures { bodies.new ≡ sought body_in (slots_by layout.now table page bytes.now) bodies.old }
{
    if is_of_catalogue(table) {
        look_for_bodies(bodies, layout, table, page, bytes);
    }
}

/// Whether a table is one of the catalogue.
fn is_of_catalogue(table: u32) -> bool
    ensures { result ≡ is_of_catalogue table }
{
    8 <= table && table <= 13
}

/// The same of a page of a table of the catalogue.
fn look_for_bodies(
    bodies: &mut BodyPlaces,
    layout: &Layout,
    table: u32,
    page: u64,
    bytes: &[u8; 4096],
)
    requires layout { IsLayout layout.now }
    requires catalogue { IsTrue (is_of_catalogue table) }
    requires page { page < 2 ^ 28 }
    ensures { bodies.new ≡ sought body_in (slots_by layout.now table page bytes.now) bodies.old }
{
    let width = slot_width(layout);
    let mut rest = &bytes[PAGE_HEAD..];
    let count = slots_per_page(layout);
    for number in 0..count {
        let (slot, behind) = rest.split_at(width);
        let position = slot_position(width, page, number);
        look_for_body(bodies, table, position, slot);
        rest = behind;
    }
}

/// Says where a slot of the catalogue stands, where it is asked for.
fn look_for_body(bodies: &mut BodyPlaces, table: u32, position: u64, slot: &[u8])
    requires catalogue { IsTrue (is_of_catalogue table) }
    requires some { 1 ≤ length slot.now }
    ensures { bodies.new ≡ with_place (body_in (table, slot.now)) position bodies.old }
{
    if slot[0] != FREE {
        bodies.place(table, &slot[1..], Some(position));
    }
}

/// Where the slots of a page begin. `AllocError` is want of memory.
pub(crate) fn page_positions(
    alloc: Global,
    layout: &Layout,
    page: u64,
) -> Result<Vec<u64>, AllocError>
    requires layout { IsLayout layout.now }
    requires page { page < 2 ^ 28 }
    ensures { IfOk result (λ positions. positions.items ≡ positions_by layout.now page) }
{
    let width = slot_width(layout);
    let count = slots_per_page(layout);
    let mut positions = Vec::with_capacity(alloc, count)?;
    for number in 0..count {
        positions.push(slot_position(width, page, number))?;
    }
    Ok(positions)
}
