use crate::lending::look_twice;
use crate::steps::Step::{self, Put, PutChunk, PutQuota, Remove, RemoveQuota, Trash};
use crate::steps::{CHUNKS, Fault, QUOTA, ROWS, changes, commit, opened, puts, seen};
use crate::{Sizes, TableSize};
use mt_machine::{FailList, Machine, MemMachine, SteadyMachine};
use mt_pages::PAGE_SIZE;
use mt_physplan::Scan;
use std::alloc::Global;
use std::test::Fail;

/// Page 0 where it counts itself and a page more.
const CONTROL: [u8; 20] = *b"CHNKFLD1\x01\0\0\0\x02\0\0\0\0\0\0\0";

/// The start of a page of table 16 with Row 0 of tenant 1, of which the mark is 1 and the value 5.
const ROW_ZERO: [u8; 30] =
    *b"\x10\0\0\0\0\0\0\0\x01\x01\0\0\0\0\0\0\0\0\0\0\0\x01\x05\0\0\0\0\0\0\0";

/// The same with Row 185, up to the first byte of the Row.
const ROW_185: [u8; 14] = *b"\x10\0\0\0\0\0\0\0\x01\x01\0\0\0\xB9";

/// The start of a page of table 1 with Row 4 of tenant 1, base table 2 and chunk 3.
const CHUNK_FOUR: [u8; 38] =
    *b"\x01\0\0\0\0\0\0\0\x01\x01\0\0\0\x02\0\0\0\x03\0\0\0\x04\0\0\0\0\0\0\0\x01\x05\0\0\0\0\0\0\0";

/// The start of a slot with Row 5 of the same.
const CHUNK_FIVE: [u8; 18] = *b"\x01\x01\0\0\0\x02\0\0\0\x03\0\0\0\x05\0\0\0\0";

/// Groups of two steps, and the first four slots of page 1 after each: the mark and the Row. Row 0 was
/// in the first slot, which Row 2 does not take and Row 3 does; a key keeps its slot.
const GROUPS: [([Step; 2], [(u8, u8); 4]); 4] = [
    ([Put(0), Put(1)], [(1, 0), (1, 1), (0, 0), (0, 0)]),
    ([Remove(0), Put(2)], [(0, 0), (1, 1), (1, 2), (0, 0)]),
    ([Put(3), Trash(1)], [(1, 3), (2, 1), (1, 2), (0, 0)]),
    ([Put(1), Trash(3)], [(2, 3), (1, 1), (1, 2), (0, 0)]),
];

/// Whether pages hold these bytes from a place on.
pub(crate) fn holds(pages: &[u8], at: usize, bytes: &[u8]) -> bool {
    match pages.get(at..) {
        Some(rest) => rest.starts_with(bytes),
        None => false,
    }
}

/// Whether pages hold zeros from a place on up to another.
fn is_blank(pages: &[u8], from: usize, upto: usize) -> bool {
    match pages.get(from..upto) {
        Some(part) => part.iter().all(|byte| *byte == 0),
        None => false,
    }
}

/// The mark of a slot of table 16 and the first byte of its Row.
fn slot_at(pages: &[u8], at: usize) -> Option<(u8, u8)> {
    match pages.get(at..) {
        Some([mark, _, _, _, _, row, ..]) => Some((*mark, *row)),
        _ => None,
    }
}

/// Whether these are the first four slots of page 1, which is of table 16.
fn has_slots(pages: &[u8], slots: [(u8, u8); 4]) -> bool {
    slot_at(pages, 4104) == Some(slots[0])
        && slot_at(pages, 4126) == Some(slots[1])
        && slot_at(pages, 4148) == Some(slots[2])
        && slot_at(pages, 4170) == Some(slots[3])
}

#[test]
fn a_row_lies_byte_for_byte(rt: HostRuntime) -> Result<(), Fail> {
    let mut machine = SteadyMachine::new(rt.alloc());
    assert_eq!(rt; commit(&mut machine, rt.alloc(), &[Put(0)])?, 2);
    let pages = machine.pages();
    assert_eq!(rt; pages.len(), 2 * PAGE_SIZE);
    assert!(rt; holds(pages, 0, &CONTROL));
    assert!(rt; holds(pages, 4096, &ROW_ZERO));
    assert!(rt; is_blank(pages, 4126, 8192));
    Ok(())
}

/// A page has 185 slots of 22 bytes.
#[test]
fn the_row_behind_a_full_page_makes_another(rt: HostRuntime) -> Result<(), Fail> {
    let alloc = rt.alloc();
    let mut machine = SteadyMachine::new(alloc);
    let steps = puts(alloc, 185)?;
    assert_eq!(rt; commit(&mut machine, alloc, &steps)?, 2);
    assert_eq!(rt; commit(&mut machine, alloc, &[Put(185)])?, 3);
    let pages = machine.pages();
    assert_eq!(rt; pages.len(), 3 * PAGE_SIZE);
    assert!(rt; holds(pages, 8152, b"\x01\x01\0\0\0\xB8"));
    assert!(rt; holds(pages, 8192, &ROW_185));
    assert_eq!(rt; seen(&mut machine, alloc, &ROWS)?.len(), 186);
    Ok(())
}

#[test]
fn a_removed_slot_waits_for_the_next_group(rt: HostRuntime) -> Result<(), Fail> {
    let alloc = rt.alloc();
    let mut machine = SteadyMachine::new(alloc);
    for (steps, slots) in GROUPS {
        assert_eq!(rt; commit(&mut machine, alloc, &steps)?, 2);
        assert_eq!(rt; machine.pages().len(), 2 * PAGE_SIZE);
        assert!(rt; has_slots(machine.pages(), slots), "{steps:?}");
    }
    let rows = seen(&mut machine, alloc, &ROWS)?;
    assert_eq!(rt;
        rows.as_slice(),
        [(1, 1, 5), (2, 1, 5), (3, 2, 5)].as_slice()
    );
    Ok(())
}

/// Page 1 is of chunks and has room, and page 2 is full of Rows.
#[test]
fn a_full_page_does_not_fill_that_of_another_table(rt: HostRuntime) -> Result<(), Fail> {
    let alloc = rt.alloc();
    let mut machine = SteadyMachine::new(alloc);
    let steps = puts(alloc, 185)?;
    assert_eq!(rt; commit(&mut machine, alloc, &[PutChunk(4)])?, 2);
    assert_eq!(rt; commit(&mut machine, alloc, &steps)?, 3);
    assert_eq!(rt; commit(&mut machine, alloc, &[Put(185)])?, 4);
    assert_eq!(rt; commit(&mut machine, alloc, &[PutChunk(5)])?, 4);
    let pages = machine.pages();
    assert_eq!(rt; pages.len(), 4 * PAGE_SIZE);
    assert!(rt; holds(pages, 4096, &CHUNK_FOUR));
    assert!(rt; holds(pages, 4134, &CHUNK_FIVE));
    assert!(rt; is_blank(pages, 4164, 8192));
    assert!(rt; holds(pages, 8192, &ROW_ZERO));
    assert!(rt; holds(pages, 12288, &ROW_185));
    Ok(())
}

/// The scans of a table with three Rows and one with a chunk, and what each shows.
#[test]
fn rows_come_in_order_of_row(rt: HostRuntime) -> Result<(), Fail> {
    let alloc = rt.alloc();
    let mut machine = SteadyMachine::new(alloc);
    let steps = [Put(3), Put(1), PutChunk(1), Put(2)];
    commit(&mut machine, alloc, &steps)?;
    for (scan, rows) in [
        (ROWS, [(1, 1, 5), (2, 1, 5), (3, 1, 5)].as_slice()),
        (CHUNKS, [(1, 1, 5)].as_slice()),
        (Scan { from: 2, ..ROWS }, [(2, 1, 5), (3, 1, 5)].as_slice()),
        (Scan { upto: 3, ..ROWS }, [(1, 1, 5), (2, 1, 5)].as_slice()),
        (Scan { tenant: 2, ..ROWS }, [].as_slice()),
        (Scan { table: 17, ..ROWS }, [].as_slice()),
        (Scan { chunk: 4, ..CHUNKS }, [].as_slice()),
    ] {
        let shown = seen(&mut machine, alloc, &scan)?;
        assert_eq!(rt; shown.as_slice(), rows, "{scan:?}");
    }
    Ok(())
}

/// The sizes of the tables of the store of a machine.
fn sizes<M: Machine>(m: &mut M, alloc: Global) -> Result<Sizes, Fault> {
    let store = opened(m, alloc)?;
    Ok(store.sizes(alloc)?)
}

/// The second put takes the slot of the first, since both are of one body.
#[test]
fn a_slot_of_the_catalogue_comes_and_goes(rt: HostRuntime) -> Result<(), Fail> {
    let alloc = rt.alloc();
    let mut machine = SteadyMachine::new(alloc);
    for (step, mark, used) in [(PutQuota, 1, 1), (PutQuota, 1, 1), (RemoveQuota, 0, 0)] {
        assert_eq!(rt; commit(&mut machine, alloc, &[step])?, 2);
        assert_eq!(rt; machine.pages().len(), 2 * PAGE_SIZE);
        assert!(rt; holds(machine.pages(), 4096, b"\x0A\0\0\0\0\0\0\0"));
        assert!(rt; holds(machine.pages(), 4104, &[mark]));
        assert!(rt; holds(machine.pages(), 4105, &QUOTA));
        assert!(rt; holds(machine.pages(), 4113, b"\0"));
        let size = TableSize {
            table: 10,
            pages: 1,
            used,
        };
        assert_eq!(rt; sizes(&mut machine, alloc)?.as_slice(), [size].as_slice());
    }
    Ok(())
}

/// How many calls the machine of a store is asked for by a scan that is made twice, and by the
/// staging of a step.
fn calls_of(
    machine: &mut MemMachine,
    alloc: Global,
    scan: &Scan,
    step: Step,
) -> Result<(u64, u64), Fault> {
    let changes = changes(alloc, &[step])?;
    let mut store = opened(machine, alloc)?;
    let before = machine.calls();
    look_twice(alloc, &mut store, machine, scan, scan)?;
    let between = machine.calls();
    store.stage(machine, alloc, &changes)?;
    Ok((
        between.saturating_sub(before),
        machine.calls().saturating_sub(between),
    ))
}

/// Table 16 has two pages and table 1 has one.
#[test]
fn pages_of_other_tables_are_not_read(rt: HostRuntime) -> Result<(), Fail> {
    let alloc = rt.alloc();
    let steps = puts(alloc, 186)?;
    let mut machine = MemMachine::new(alloc, FailList::new(alloc));
    assert_eq!(rt; commit(&mut machine, alloc, &steps)?, 3);
    assert_eq!(rt; commit(&mut machine, alloc, &[PutChunk(4)])?, 4);
    for (scan, step, calls) in [
        (ROWS, Put(186), (4, 2)),
        (CHUNKS, PutChunk(5), (2, 1)),
        (Scan { table: 10, ..ROWS }, PutQuota, (0, 0)),
    ] {
        let asked = calls_of(&mut machine, alloc, &scan, step)?;
        assert_eq!(rt; asked, calls, "{step:?}");
    }
    Ok(())
}
