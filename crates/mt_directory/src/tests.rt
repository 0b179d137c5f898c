ghost use Rattle.std.specs.Prelude.{◌≡◌, ◌≤◌, IfSome};
ghost use Rattle.mt_rowfile.specs.Layouts.{IsLayout};

use crate::{Directory, Layouts};
use mt_codec::FieldKind;
use mt_list::List;
use mt_rowfile::{Head, Layout, slot_width};
use std::process::Abort;
use std::test::Fail;

/// The bytes of a slot of each table that has a layout from the start, by table from 0 on: those of a
/// chunk behind 21 bytes, with 9 for an integer and 123 for a text.
const WIDTHS: [usize; 16] = [
    0, 30, 144, 153, 57, 285, 549, 0, 41, 45, 9, 35, 17, 17, 0, 0,
];

/// The bytes of a slot of a table, or 0 where no layout of it is known.
fn width_of(layouts: &Layouts, table: u32) -> usize {
    match layouts.get(table) {
        Some(layout) => slot_width(layout),
        None => 0,
    }
}

#[test]
fn first_layouts_are_known(rt: HostRuntime) -> Result<(), Fail> {
    let layouts = Layouts::new(rt.alloc())?;
    for (table, width) in WIDTHS.iter().enumerate() {
        assert_eq!(rt; width_of(&layouts, table as u32), *width);
    }
    for table in 16..40 {
        assert!(rt; layouts.get(table).is_none());
    }
    Ok(())
}

#[test]
fn conventional_layouts_are_set(rt: HostRuntime) -> Result<(), Fail> {
    let alloc = rt.alloc();
    let mut layouts = Layouts::new(alloc)?;
    layouts.set(
        31,
        Layout {
            head: Head::Conventional,
            kinds: List::new(alloc),
        },
    );
    assert_eq!(rt; width_of(&layouts, 31), 13);
    let kinds = List::from_vec(Vec::from_slice(alloc, &[FieldKind::Int])?);
    layouts.set(
        31,
        Layout {
            head: Head::Conventional,
            kinds,
        },
    );
    assert_eq!(rt; width_of(&layouts, 31), 22);
    assert_eq!(rt; width_of(&layouts, 30), 0);
    assert_eq!(rt; width_of(&layouts, 6), 549);
    Ok(())
}

#[test]
fn pages_are_listed(rt: HostRuntime) -> Result<(), Fail> {
    let mut directory = Directory::new(rt.alloc());
    assert_eq!(rt; directory.len(), 0);
    for page in 0..300u32 {
        directory.push(page % 40)?;
    }
    assert_eq!(rt; directory.len(), 300);
    for page in 0..300u32 {
        let table = page % 40;
        let listed = if table < 32 { table } else { 0 };
        assert_eq!(rt; directory.table(u64::from(page) + 1), listed);
    }
    assert_eq!(rt; directory.pages(19), 8);
    assert_eq!(rt; directory.pages(20), 7);
    assert_eq!(rt; directory.pages(255), 0);
    Ok(())
}

#[test]
fn pages_are_listed_in_their_room(rt: HostRuntime) -> Result<(), Fail> {
    let mut directory = Directory::new(rt.alloc());
    directory.reserve(2)?;
    directory.push_reserved(31);
    directory.push_reserved(32);
    assert_eq!(rt; directory.len(), 2);
    assert_eq!(rt; directory.table(1), 31);
    assert_eq!(rt; directory.table(2), 0);
    Ok(())
}
