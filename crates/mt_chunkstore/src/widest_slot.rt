ghost use Rattle.std.specs.Prelude.{◌≡◌, All, IfOk, Some, length};
ghost use Rattle.mt_rowfile.specs.declared.layout.Head.TheVariants.{Conventional};
ghost use Rattle.mt_rowfile.specs.Fields.{AreFitting};
ghost use Rattle.mt_rowfile.specs.Layouts.{IsLayout};
ghost use Rattle.mt_tables.specs.Rows.{KnownLayouts, layout_of};
ghost use Rattle.mt_directory.specs.Known.{known_in};
ghost use Rattle.mt_chunkstore.specs.Changes.{IsSuited};
ghost use Rattle.mt_chunkstore.specs.Standing.{Stands};

use crate::Store;
use crate::commits::holds;
use crate::steps::Fault;
use mt_codec::FieldKind;
use mt_list::List;
use mt_machine::{Machine, SteadyMachine};
use mt_pages::PAGE_SIZE;
use mt_physplan::{Change, Changes};
use mt_rowfile::{Head, Layout, SlotRow};
use mt_value::Value;
use std::alloc::{AllocError, Global};
use std::test::Fail;

const LONG: FieldKind = FieldKind::Text(255);

const REST: FieldKind = FieldKind::Text(193);

const INT: FieldKind = FieldKind::Int;

/// Fields of 4,075 bytes: with the 13 in front of them a slot has all that a page has for slots.
const WIDEST: [FieldKind; 17] = [
    LONG, LONG, LONG, LONG, LONG, LONG, LONG, LONG, LONG, LONG, LONG, LONG, LONG, LONG, LONG, REST,
    INT,
];

/// The layout of slots with these fields.
fn layout(alloc: Global) -> Result<Layout, AllocError>
    ensures layout { IfOk result (λ layout. layout ≡ record { head = Conventional; kinds = WIDEST }) }
    ensures head { IfOk result (λ layout. layout.head ≡ Conventional) }
    ensures sound { IfOk result (λ layout. IsLayout layout) }
{
    Ok(Layout {
        head: Head::Conventional,
        kinds: List::from_vec(Vec::from_slice(alloc, &WIDEST)?),
    })
}

/// The store of a machine, where table 31 has that layout.
fn opened<M: Machine>(m: &mut M, alloc: Global) -> Result<Store, Fault>
    ensures stands { IfOk result (λ store. Stands store (M.meaning m.new)) }
    ensures layout { IfOk result (λ store. layout_of (known_in store.layouts) 31 ≡ Some (record { head = Conventional; kinds = WIDEST })) }
{
    let mut store = Store::load(m, alloc)?;
    store.add_layout(m, 31, layout(alloc)?)?;
    Ok(store)
}

/// Values of which all but the last are NULL.
fn values(alloc: Global) -> Result<List<Value>, AllocError>
    ensures { IfOk result (AreFitting WIDEST) }
{
    let mut values = List::new(alloc);
    for _null in 0..16usize {
        values.push(Value::Null)?;
    }
    values.push(Value::Int(-1))?;
    Ok(values)
}

/// Puts such a Row into table 31, where it has a page for itself.
fn put(alloc: Global, row: u64) -> Result<Change, AllocError>
    ensures { IfOk result (λ change. (known : KnownLayouts) → layout_of known 31 ≡ Some (record { head = Conventional; kinds = WIDEST }) → IsSuited known change) }
{
    Ok(Change::Put {
        table: 31,
        slot: SlotRow {
            mark: 1,
            tenant: 1,
            base: 0,
            chunk: 0,
            row,
            values: values(alloc)?,
        },
    })
}

/// Puts the Rows 0 and 1.
fn puts(alloc: Global) -> Result<Changes, AllocError>
    ensures suited { IfOk result (λ changes. (known : KnownLayouts) → layout_of known 31 ≡ Some (record { head = Conventional; kinds = WIDEST }) → All (IsSuited known) changes) }
    ensures size { IfOk result (λ changes. length changes ≡ 2) }
{
    let mut changes: Changes = List::new(alloc);
    for row in 0..2 {
        changes.push(put(alloc, row)?)?;
    }
    Ok(changes)
}

/// Commits the two Rows to the store of a machine, and tells how many pages it has then.
fn commit<M: Machine>(m: &mut M, alloc: Global) -> Result<u64, Fault> {
    let changes = puts(alloc)?;
    let mut store = opened(m, alloc)?;
    let staged = store.stage(m, alloc, &changes)?;
    store.commit(m, staged)?;
    Ok(store.pages())
}

/// Whether a page holds one such Row, from its head to its last byte, with this first byte of its Row.
fn holds_widest(pages: &[u8], page: usize, row: u8) -> bool {
    let Some(page) = pages.get(page..) else {
        return false;
    };
    holds(page, 0, b"\x1F\0\0\0\0\0\0\0\x01\x01\0\0\0")
        && holds(page, 13, &[row])
        && holds(page, 4086, b"\0\x01\xFF\xFF\xFF\xFF\xFF\xFF\xFF\xFF")
}

#[test]
fn the_widest_slot_fills_a_page(rt: HostRuntime) -> Result<(), Fail> {
    let mut machine = SteadyMachine::new(rt.alloc());
    let count = commit(&mut machine, rt.alloc())?;
    let pages = machine.pages();
    assert!(rt; count == 3 && pages.len() == 3 * PAGE_SIZE);
    assert!(rt; holds_widest(pages, 4096, 0) && holds_widest(pages, 8192, 1));
    Ok(())
}
