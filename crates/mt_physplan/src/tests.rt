ghost use Rattle.std.specs.Prelude.{◌≡◌, IfOk};

use crate::{ListPhys, Phys, Scan, SlotMap};
use mt_list::List;
use mt_rowfile::SlotRow;
use mt_value::Value;
use std::alloc::{AllocError, Global};
use std::test::Fail;

/// A visible slot with one field, which holds its Row again.
fn slot(alloc: Global, tenant: u32, base: u32, chunk: u32, row: u64) -> Result<SlotRow, AllocError>
    ensures { IfOk result (λ slot. (slot.base ≡ base) × (slot.chunk ≡ chunk)) }
{
    let mut values = List::new(alloc);
    values.push(Value::Int(row.cast_signed()))?;
    Ok(SlotRow {
        mark: 1,
        tenant,
        base,
        chunk,
        row,
        values,
    })
}

/// The scan of all Rows of a chunk.
fn whole(table: u32, tenant: u32, base: u32, chunk: u32) -> Scan {
    Scan {
        table,
        tenant,
        base,
        chunk,
        from: 0,
        upto: u64::MAX,
    }
}

/// The Rows that a scan gives.
fn rows(alloc: Global, phys: &mut ListPhys, scan: &Scan) -> Result<Vec<u64>, Fail> {
    let mut rows = Vec::new(alloc);
    for slot in phys.scan(alloc, scan)?.as_slice() {
        rows.push(slot.row)?;
    }
    Ok(rows)
}

/// Tables 2, with slots of two tenants, two base tables and two chunks, and 17, put out of order.
fn filled(alloc: Global) -> Result<ListPhys, AllocError> {
    let mut phys = ListPhys::new(alloc);
    phys.put(2, slot(alloc, 35, 0, 1, 7)?)?;
    phys.put(2, slot(alloc, 35, 0, 1, 3)?)?;
    phys.put(2, slot(alloc, 35, 0, 1, 5)?)?;
    phys.put(2, slot(alloc, 17, 0, 1, 4)?)?;
    phys.put(2, slot(alloc, 35, 1, 1, 8)?)?;
    phys.put(2, slot(alloc, 35, 0, 0, 9)?)?;
    phys.put(17, slot(alloc, 35, 0, 0, 6)?)?;
    Ok(phys)
}

#[test]
fn scans_are_filters_in_order_of_row(rt: HostRuntime) -> Result<(), Fail> {
    let alloc = rt.alloc();
    let mut phys = filled(alloc)?;
    let from_5 = Scan {
        from: 5,
        ..whole(2, 35, 0, 1)
    };
    let upto_7 = Scan {
        upto: 7,
        ..whole(2, 35, 0, 1)
    };
    let table: [(Scan, &[u64]); 9] = [
        (whole(2, 35, 0, 1), &[3, 5, 7]),
        (from_5, &[5, 7]),
        (upto_7, &[3, 5]),
        (whole(2, 17, 0, 1), &[4]),
        (whole(2, 35, 1, 1), &[8]),
        (whole(2, 35, 0, 0), &[9]),
        (whole(17, 35, 0, 0), &[6]),
        (whole(8, 35, 0, 0), &[]),
        (whole(32, 35, 0, 0), &[]),
    ];
    for (scan, wanted) in table {
        assert_eq!(rt;
            rows(alloc, &mut phys, &scan)?.as_slice(),
            wanted,
            "{scan:?}"
        );
    }
    Ok(())
}

#[test]
fn each_scan_is_counted_for_its_table(rt: HostRuntime) -> Result<(), Fail> {
    let alloc = rt.alloc();
    let mut phys = filled(alloc)?;
    for table in [2, 17, 2, 31, 32] {
        phys.scan(alloc, &whole(table, 1, 0, 0))?;
    }
    let mut wanted = [0; 32];
    wanted[2] = 2;
    wanted[17] = 1;
    wanted[31] = 1;
    assert_eq!(rt; phys.counts.each, wanted);
    Ok(())
}

#[test]
fn a_put_takes_the_place_of_a_slot_with_its_key(rt: HostRuntime) -> Result<(), Fail> {
    let alloc = rt.alloc();
    let mut phys = filled(alloc)?;
    let mut again = slot(alloc, 35, 0, 1, 5)?;
    again.mark = 2;
    phys.put(2, again)?;
    let found = phys.scan(alloc, &whole(2, 35, 0, 1))?;
    let mut marks = Vec::new(alloc);
    for slot in found.as_slice() {
        marks.push((slot.row, slot.mark, slot.values.len()))?;
    }
    assert_eq!(rt;
        marks.as_slice(),
        [(3, 1, 1), (5, 2, 1), (7, 1, 1)].as_slice()
    );
    Ok(())
}

#[test]
fn slots_come_out_in_order_of_keys(rt: HostRuntime) -> Result<(), Fail> {
    let alloc = rt.alloc();
    let mut slots = SlotMap::new(alloc);
    for row in [4, 0, 65535, 2] {
        slots.put(16, slot(alloc, 1, 0, 0, row)?)?;
    }
    slots.put(1, slot(alloc, 2, 3, 1, 9)?)?;
    let found = slots.into_slots(alloc)?;
    let mut rows = Vec::new(alloc);
    for slot in found.as_slice() {
        rows.push((slot.tenant, slot.row))?;
    }
    assert_eq!(rt;
        rows.as_slice(),
        [(2, 9), (1, 0), (1, 2), (1, 4), (1, 65535)].as_slice()
    );
    Ok(())
}
