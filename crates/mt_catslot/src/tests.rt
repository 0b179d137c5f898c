ghost use Rattle.std.specs.Prelude.{IfOk};
ghost use Rattle.mt_catslot.specs.Slots.{IsSayable, IsSayableName};

use crate::{
    CatKey, CatSlot, Class, Motion, read_body, said_bodies_are_written,
    said_slots_stand_in_their_table, write_body, written_slots_are_read,
    written_slots_are_readable,
};
use mt_fold::Shape;
use mt_list::{Duplicate, List};
use mt_rowfile::{Head, Layout, check_slot};
use mt_tree::Kind;
use mt_value::Str;
use std::alloc::Global;
use std::process::Abort;
use std::test::Fail;

/// What a slot in use says, with its mark in front, in this table of the catalogue.
fn said(rt: &impl Abort, alloc: Global, table: u8, slot: &[u8]) -> Result<Option<CatSlot>, Fail> {
    assert!(rt; 8 <= table);
    assert!(rt; table <= 13);
    let layout = Layout {
        head: Head::Catalogue(table),
        kinds: List::new(alloc),
    };
    assert!(rt; check_slot(&layout, slot));
    assert!(rt; slot[0] != 0);
    Ok(read_body(alloc, u32::from(table), &slot[1..])?)
}

/// Writes the slot, of the bytes wanted behind a mark, and reads them again.
fn write_and_read(
    rt: &impl Abort,
    alloc: Global,
    table: u8,
    slot: &CatSlot,
    wanted: &[u8],
) -> Result<(), Fail>
    requires { IsSayable slot.now }
{
    let mut bytes = Vec::from_slice(alloc, &[1])?;
    bytes.extend_from_slice(write_body(alloc, slot)?.as_slice())?;
    assert_eq!(rt; bytes.as_slice(), wanted);
    assert_eq!(rt; slot.table(), u32::from(table));
    let Some(read) = said(rt, alloc, table, wanted)? else {
        panic!(rt; "nothing said");
    };
    assert_eq!(rt; read.key(), slot.key());
    let copied = read.copy(alloc)?;
    let wanted_text = format!(in alloc; "{slot:?}")?;
    assert_eq!(rt; format!(in alloc; "{copied:?}")?, wanted_text);
    Ok(())
}

/// A name.
fn name(rt: &impl Abort, alloc: Global, text: &str) -> Result<Str, Fail>
    ensures { IfOk result (λ name. IsSayableName name) }
{
    assert!(rt; 1 <= text.len());
    assert!(rt; text.len() <= 30);
    assert!(rt; text.as_bytes().is_ascii());
    Ok(Str::from_str(alloc, text)?)
}

/// The slot of the extension `automotive`.
const EXTENSION: [u8; 41] =
    *b"\x01\x02\x01\0\0\x01\x03\0\0\0\x0aautomotive\0\0\0\0\0\0\0\0\0\0\0\0\0\0\0\0\0\0\0\0";

/// The slot of a column of 40 bytes.
const COLUMN: [u8; 45] =
    *b"\x01\0\x04\0\0\0\x01\0\0\0\x02\x28\0\0\x04name\0\0\0\0\0\0\0\0\0\0\0\0\0\0\0\0\0\0\0\0\0\0\0\0\0\0";

/// The slot of the key of a table.
const KEY: [u8; 45] =
    *b"\x01\0\x04\0\0\0\0\0\0\0\x01\0\x01\x01\x03aid\0\0\0\0\0\0\0\0\0\0\0\0\0\0\0\0\0\0\0\0\0\0\0\0\0\0\0";

/// The slot of a settled table of 2 rows.
const SETTLED: [u8; 35] =
    *b"\x01\x11\0\0\0\x03\0\0\0\x02\0\0\0\0\0\0\0\0\x01\0\0\0\0\0\0\0\0\0\0\0\0\0\0\0\0";

/// The slot of the field of C3 in which a column lies.
const FIELD: [u8; 17] = *b"\x01\x11\0\0\0\x05\0\0\0\x01\x03\0\0\0\x03\x02\0";

#[test]
fn tables_and_extensions(rt: HostRuntime) -> Result<(), Fail> {
    let alloc = rt.alloc();
    let base = CatSlot::Relation {
        class: Class::BaseTable,
        number: 0,
        base: 0,
        name: name(&rt, alloc, "account")?,
    };
    write_and_read(
        &rt,
        alloc,
        8,
        &base,
        b"\x01\0\0\0\0\0\0\0\0\0\x07account\0\0\0\0\0\0\0\0\0\0\0\0\0\0\0\0\0\0\0\0\0\0\0",
    )?;
    let extension = CatSlot::Relation {
        class: Class::Extension,
        number: 258,
        base: 3,
        name: name(&rt, alloc, "automotive")?,
    };
    write_and_read(&rt, alloc, 8, &extension, &EXTENSION)?;
    let key = CatKey::Relation {
        class: Class::Extension,
        number: 258,
    };
    assert_eq!(&rt; extension.key(), key);
    Ok(())
}

#[test]
fn columns(rt: HostRuntime) -> Result<(), Fail> {
    let alloc = rt.alloc();
    let aid = CatSlot::Column {
        class: Class::BaseTable,
        number: 4,
        position: 0,
        kind: Kind::Integer,
        not_null: true,
        key: true,
        name: name(&rt, alloc, "aid")?,
    };
    write_and_read(&rt, alloc, 9, &aid, &KEY)?;
    let column = CatSlot::Column {
        class: Class::BaseTable,
        number: 4,
        position: 1,
        kind: Kind::Varchar(40),
        not_null: false,
        key: false,
        name: name(&rt, alloc, "name")?,
    };
    write_and_read(&rt, alloc, 9, &column, &COLUMN)
}

#[test]
fn tenants(rt: HostRuntime) -> Result<(), Fail> {
    let slot = CatSlot::Tenant {
        tenant: 17,
        quota: 100,
    };
    write_and_read(&rt, rt.alloc(), 10, &slot, b"\x01\x11\0\0\0\x64\0\0\0")
}

#[test]
fn placements(rt: HostRuntime) -> Result<(), Fail> {
    let alloc = rt.alloc();
    let settled = CatSlot::Placement {
        tenant: 17,
        base: 3,
        made: 2,
        motion: Motion::Settled { generation: 1 },
    };
    write_and_read(&rt, alloc, 11, &settled, &SETTLED)?;
    let moving = CatSlot::Placement {
        tenant: 17,
        base: 0,
        made: 6,
        motion: Motion::Moving {
            generation: 0,
            frontier: 2,
            upto: 5,
        },
    };
    write_and_read(
        &rt,
        alloc,
        11,
        &moving,
        b"\x01\x11\0\0\0\0\0\0\0\x06\0\0\0\0\0\0\0\x01\0\x02\0\0\0\0\0\0\0\x05\0\0\0\0\0\0\0",
    )
}

#[test]
fn extensions_of_tenants(rt: HostRuntime) -> Result<(), Fail> {
    let slot = CatSlot::Extended {
        tenant: 42,
        base: 3,
        position: 2,
        extension: 1,
    };
    write_and_read(
        &rt,
        rt.alloc(),
        12,
        &slot,
        b"\x01\x2a\0\0\0\x03\0\0\0\x02\0\0\0\x01\0\0\0",
    )
}

#[test]
fn fields(rt: HostRuntime) -> Result<(), Fail> {
    let slot = CatSlot::Field {
        tenant: 17,
        base: 5,
        generation: 1,
        column: 3,
        shape: Shape::C3,
        chunk: 2,
        field: 0,
    };
    write_and_read(&rt, rt.alloc(), 13, &slot, &FIELD)
}

#[test]
fn names_of_1_and_30_bytes(rt: HostRuntime) -> Result<(), Fail> {
    let alloc = rt.alloc();
    let short = CatSlot::Relation {
        class: Class::BaseTable,
        number: 7,
        base: 7,
        name: name(&rt, alloc, "t")?,
    };
    write_and_read(
        &rt,
        alloc,
        8,
        &short,
        b"\x01\x07\0\0\0\0\x07\0\0\0\x01t\0\0\0\0\0\0\0\0\0\0\0\0\0\0\0\0\0\0\0\0\0\0\0\0\0\0\0\0\0",
    )?;
    let long = CatSlot::Relation {
        class: Class::BaseTable,
        number: 8,
        base: 8,
        name: name(&rt, alloc, "abcdefghijklmnopqrstuvwxyz0123")?,
    };
    write_and_read(
        &rt,
        alloc,
        8,
        &long,
        b"\x01\x08\0\0\0\0\x08\0\0\0\x1eabcdefghijklmnopqrstuvwxyz0123",
    )
}

#[test]
fn bytes_behind_a_name_are_not_read(rt: HostRuntime) -> Result<(), Fail> {
    let alloc = rt.alloc();
    let mut slot = EXTENSION;
    slot[21..].fill(0xff);
    match said(&rt, alloc, 8, &slot)? {
        Some(CatSlot::Relation { name, .. }) => assert_eq!(&rt; name.as_str(), "automotive"),
        _ => panic!(&rt; "no extension"),
    }
    let mut slot = COLUMN;
    slot[19..].fill(0xff);
    match said(&rt, alloc, 9, &slot)? {
        Some(CatSlot::Column { name, .. }) => assert_eq!(&rt; name.as_str(), "name"),
        _ => panic!(&rt; "no column"),
    }
    Ok(())
}

/// A slot with one byte changed says nothing, and as it stands it says something.
fn says_nothing_with(
    rt: &impl Abort,
    alloc: Global,
    table: u8,
    slot: &[u8],
    at: usize,
    byte: u8,
) -> Result<(), Fail> {
    assert!(rt; said(rt, alloc, table, slot)?.is_some());
    let mut changed = Vec::from_slice(alloc, slot)?;
    assert!(rt; at < changed.len());
    changed[at] = byte;
    assert!(rt;
        said(rt, alloc, table, &changed)?.is_none(),
        "{byte} at {at}"
    );
    Ok(())
}

#[test]
fn bytes_that_say_nothing(rt: HostRuntime) -> Result<(), Fail> {
    let alloc = rt.alloc();
    says_nothing_with(&rt, alloc, 8, &EXTENSION, 5, 2)?;
    says_nothing_with(&rt, alloc, 9, &COLUMN, 1, 2)?;
    says_nothing_with(&rt, alloc, 9, &COLUMN, 10, 0)?;
    says_nothing_with(&rt, alloc, 9, &COLUMN, 10, 3)?;
    says_nothing_with(&rt, alloc, 9, &COLUMN, 11, 0)?;
    says_nothing_with(&rt, alloc, 9, &COLUMN, 11, 121)?;
    says_nothing_with(&rt, alloc, 9, &KEY, 11, 1)?;
    says_nothing_with(&rt, alloc, 11, &SETTLED, 17, 2)?;
    says_nothing_with(&rt, alloc, 11, &SETTLED, 19, 1)?;
    says_nothing_with(&rt, alloc, 11, &SETTLED, 34, 1)?;
    says_nothing_with(&rt, alloc, 13, &FIELD, 14, 0)?;
    says_nothing_with(&rt, alloc, 13, &FIELD, 14, 7)
}

#[test]
fn each_class_kind_and_shape_is_read(rt: HostRuntime) -> Result<(), Fail> {
    let alloc = rt.alloc();
    for shape in 1..7 {
        let mut slot = FIELD;
        slot[14] = shape;
        match said(&rt, alloc, 13, &slot)? {
            Some(CatSlot::Field { shape: read, .. }) => {
                assert_eq!(&rt; read.table(), u32::from(shape))
            }
            _ => panic!(&rt; "no field"),
        }
    }
    for size in [1, 120] {
        let mut slot = COLUMN;
        slot[11] = size;
        match said(&rt, alloc, 9, &slot)? {
            Some(CatSlot::Column { kind, .. }) => assert_eq!(&rt; kind, Kind::Varchar(size)),
            _ => panic!(&rt; "no column"),
        }
    }
    Ok(())
}

#[test]
fn laws(_rt: HostRuntime) {
    written_slots_are_read();
    written_slots_are_readable();
    said_bodies_are_written();
    said_slots_stand_in_their_table();
}
