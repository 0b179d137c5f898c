ghost use Rattle.std.specs.Prelude.{◌≡◌, IfOk};
ghost use Rattle.mt_rowfile.specs.Layouts.{IsLayout, IsOfRows};
ghost use Rattle.mt_rowfile.specs.Slots.{FitsLayout};

use crate::{
    Head, Layout, SlotFault, SlotRow, check_slot, chunk_layout, free_slots, read_head, read_slot,
    slot_width, slots_are_read_again, slots_per_page, write_slot,
};
use mt_codec::FieldKind;
use mt_list::{Duplicate, List};
use mt_value::{Str, Value};
use std::alloc::{AllocError, Global};
use std::process::Abort;
use std::test::Fail;

/// The layout with these fields.
fn layout_of(alloc: Global, head: Head, kinds: &[FieldKind]) -> Result<Layout, AllocError>
    ensures head { IfOk result (λ layout. layout.head ≡ head) }
    ensures kinds { IfOk result (λ layout. layout.kinds ≡ kinds.now) }
{
    Ok(Layout {
        head,
        kinds: List::from_vec(Vec::from_slice(alloc, kinds)?),
    })
}

/// Writes the slot, of the bytes wanted, and reads it again.
fn write_and_read(
    rt: &impl Abort,
    alloc: Global,
    layout: &Layout,
    slot: &SlotRow,
    wanted: &[u8],
) -> Result<(), Fail>
    requires layout { IsLayout layout.now }
    requires rows { IsOfRows layout.now.head }
    requires fits { FitsLayout layout.now slot.now }
{
    let width = slot_width(layout);
    assert_eq!(rt; width, wanted.len());
    let mut bytes = Vec::from_elem(alloc, 9, width)?;
    write_slot(layout, slot, &mut bytes);
    assert_eq!(rt; bytes.as_slice(), wanted);
    assert!(rt; check_slot(layout, &bytes));
    assert!(rt; bytes[0] != 0);
    let head = read_head(layout, &bytes);
    assert_eq!(rt; (head.tenant, head.base), (slot.tenant, slot.base));
    assert_eq!(rt; (head.chunk, head.row), (slot.chunk, slot.row));
    let read = read_slot(alloc, layout, &bytes)?.copy(alloc)?;
    assert_eq!(rt;
        (read.mark, read.tenant, read.base),
        (slot.mark, slot.tenant, slot.base)
    );
    assert_eq!(rt; (read.chunk, read.row), (slot.chunk, slot.row));
    assert_eq!(rt; read.values, slot.values);
    Ok(())
}

#[test]
fn conventional_slots_are_written_and_read(rt: HostRuntime) -> Result<(), Fail> {
    slots_are_read_again();
    let alloc = rt.alloc();
    let layout = layout_of(alloc, Head::Conventional, &[FieldKind::Int])?;
    let mut values = List::new(alloc);
    values.push(Value::Int(5))?;
    let slot = SlotRow {
        mark: 1,
        tenant: 1,
        base: 0,
        chunk: 0,
        row: 0,
        values,
    };
    write_and_read(
        &rt,
        alloc,
        &layout,
        &slot,
        b"\x01\x01\0\0\0\0\0\0\0\0\0\0\0\x01\x05\0\0\0\0\0\0\0",
    )
}

#[test]
fn accounts_are_written_and_read(rt: HostRuntime) -> Result<(), Fail> {
    let alloc = rt.alloc();
    let layout = layout_of(
        alloc,
        Head::Conventional,
        &[FieldKind::Int, FieldKind::Text(20)],
    )?;
    let name = Str::from_bytes(alloc, b"Ball")?;
    assert!(&rt; name.len() <= 20);
    let mut values = List::new(alloc);
    values.push(Value::Int(1))?;
    values.push(Value::Text(name))?;
    let slot = SlotRow {
        mark: 1,
        tenant: 35,
        base: 0,
        chunk: 0,
        row: 0,
        values,
    };
    write_and_read(
        &rt,
        alloc,
        &layout,
        &slot,
        b"\x01\x23\0\0\0\0\0\0\0\0\0\0\0\x01\x01\0\0\0\0\0\0\0\x01\x04\0Ball\0\0\0\0\0\0\0\0\0\0\0\0\0\0\0\0",
    )
}

#[test]
fn chunks_are_written_and_read(rt: HostRuntime) -> Result<(), Fail> {
    let alloc = rt.alloc();
    let layout = chunk_layout(alloc, 5)?;
    let state = Str::from_bytes(alloc, b"State")?;
    assert!(&rt; state.len() <= 120);
    let mut values = List::new(alloc);
    values.push(Value::Int(135))?;
    values.push(Value::Null)?;
    values.push(Value::Text(state))?;
    values.push(Value::Null)?;
    let slot = SlotRow {
        mark: 1,
        tenant: 17,
        base: 2,
        chunk: 3,
        row: 4,
        values,
    };
    let mut wanted = [0; 285];
    wanted[..21].copy_from_slice(b"\x01\x11\0\0\0\x02\0\0\0\x03\0\0\0\x04\0\0\0\0\0\0\0");
    wanted[21..30].copy_from_slice(b"\x01\x87\0\0\0\0\0\0\0");
    wanted[39..47].copy_from_slice(b"\x01\x05\0State");
    write_and_read(&rt, alloc, &layout, &slot, &wanted)
}

#[test]
fn texts_are_written_and_read(rt: HostRuntime) -> Result<(), Fail> {
    let alloc = rt.alloc();
    let table = [
        ("", b"\0\0".as_slice()),
        ("a", b"\x01\0a"),
        ("abcde", b"\x05\0abcde"),
        ("Zo\u{eb}", b"\x04\0Zo\xc3\xab"),
    ];
    for (text, spelled) in table {
        let layout = layout_of(alloc, Head::Conventional, &[FieldKind::Text(5)])?;
        let text = Str::from_str(alloc, text)?;
        assert!(&rt; text.len() <= 5);
        let mut values = List::new(alloc);
        values.push(Value::Text(text))?;
        let slot = SlotRow {
            mark: 2,
            tenant: 1,
            base: 0,
            chunk: 0,
            row: 7,
            values,
        };
        let mut wanted = [0; 21];
        wanted[..14].copy_from_slice(b"\x02\x01\0\0\0\x07\0\0\0\0\0\0\0\x01");
        let end = 14 + spelled.len();
        assert!(&rt; end <= 21);
        wanted[14..end].copy_from_slice(spelled);
        write_and_read(&rt, alloc, &layout, &slot, &wanted)?;
    }
    Ok(())
}

#[test]
fn chunk_tables_have_shapes(rt: HostRuntime) -> Result<(), Fail> {
    let shapes = [
        (30, 136),
        (144, 28),
        (153, 26),
        (57, 71),
        (285, 14),
        (549, 7),
    ];
    for i in 0..6 {
        let layout = chunk_layout(rt.alloc(), i as u32 + 1)?;
        assert_eq!(&rt; (slot_width(&layout), slots_per_page(&layout)), shapes[i]);
    }
    Ok(())
}

#[test]
fn tables_of_the_catalogue_have_shapes(rt: HostRuntime) -> Result<(), Fail> {
    let shapes = [
        (41, 99),
        (45, 90),
        (9, 454),
        (35, 116),
        (17, 240),
        (17, 240),
    ];
    for i in 0..6 {
        let layout = layout_of(rt.alloc(), Head::Catalogue(i as u8 + 8), &[])?;
        assert_eq!(&rt; (slot_width(&layout), slots_per_page(&layout)), shapes[i]);
    }
    Ok(())
}

#[test]
fn bad_slots_are_refused(rt: HostRuntime) -> Result<(), Fail> {
    let alloc = rt.alloc();
    let table = [
        (
            Head::Conventional,
            b"\x03\x01\0\0\0\0\0\0\0\0\0\0\0\0\0\0\0\0\0\0\0\0".as_slice(),
        ),
        (
            Head::Conventional,
            b"\x01\x01\0\0\0\0\0\0\0\0\0\0\0\0\0\0\0\0\0\0\0",
        ),
        (
            Head::Conventional,
            b"\x01\x01\0\0\0\0\0\0\0\0\0\0\0\x02\0\0\0\0\0\0\0\0",
        ),
        (
            Head::Chunk,
            b"\x02\x01\0\0\0\0\0\0\0\0\0\0\0\0\0\0\0\0\0\0\0\0\0\0\0\0\0\0\0\0",
        ),
        (
            Head::Chunk,
            b"\x03\x01\0\0\0\0\0\0\0\0\0\0\0\0\0\0\0\0\0\0\0\0\0\0\0\0\0\0\0\0",
        ),
    ];
    for (head, bytes) in table {
        let layout = layout_of(alloc, head, &[FieldKind::Int])?;
        assert!(&rt; !check_slot(&layout, bytes), "{bytes:?}");
    }
    Ok(())
}

#[test]
fn bad_slots_are_not_read(rt: HostRuntime) -> Result<(), Fail> {
    let alloc = rt.alloc();
    let layout = layout_of(alloc, Head::Conventional, &[FieldKind::Int])?;
    let bad = b"\x01\x01\0\0\0\0\0\0\0\0\0\0\0\x02\0\0\0\0\0\0\0\0";
    assert_eq!(&rt; read_slot(alloc, &layout, bad).err(), Some(SlotFault::Bad));
    Ok(())
}

#[test]
fn free_slots_are_not_looked_at(rt: HostRuntime) -> Result<(), Fail> {
    let alloc = rt.alloc();
    let layout = layout_of(alloc, Head::Conventional, &[FieldKind::Int])?;
    assert!(&rt;
        check_slot(
            &layout,
            b"\0\x01rubbish\xff\xff\x02\x02\x02\x02\x02\x02\x02\x02\x02\x02\x02"
        )
    );
    let layout = layout_of(alloc, Head::Catalogue(10), &[])?;
    assert!(&rt; check_slot(&layout, b"\0rubbish\xff"));
    Ok(())
}

#[test]
fn names_in_the_catalogue_are_looked_at(rt: HostRuntime) -> Result<(), Fail> {
    let alloc = rt.alloc();
    let layout = layout_of(alloc, Head::Catalogue(8), &[])?;
    let mut slot = [0; 41];
    slot[0] = 1;
    let table = [
        (0, b'a', false),
        (1, b'a', true),
        (30, b'a', true),
        (31, b'a', false),
        (3, 0x80, false),
    ];
    for (count, letter, wanted) in table {
        slot[10] = count;
        slot[11..].fill(letter);
        assert_eq!(&rt; check_slot(&layout, &slot), wanted);
    }
    Ok(())
}

#[test]
fn columns_in_the_catalogue_are_looked_at(rt: HostRuntime) -> Result<(), Fail> {
    let alloc = rt.alloc();
    let layout = layout_of(alloc, Head::Catalogue(9), &[])?;
    let mut slot = [0; 45];
    slot[0] = 1;
    let table = [
        (1, 1, 1, true),
        (2, 0, 1, false),
        (0, 2, 1, false),
        (0, 0, 31, false),
    ];
    for (not_null, key, count, wanted) in table {
        slot[12] = not_null;
        slot[13] = key;
        slot[14] = count;
        assert_eq!(&rt; check_slot(&layout, &slot), wanted);
    }
    Ok(())
}

#[test]
fn free_slots_are_counted(rt: HostRuntime) -> Result<(), Fail> {
    let layout = layout_of(rt.alloc(), Head::Conventional, &[FieldKind::Int])?;
    let mut page = [0; 4096];
    assert_eq!(&rt; free_slots(&layout, &page), 185);
    page[8 + 184 * 22] = 1;
    assert_eq!(&rt; free_slots(&layout, &page), 184);
    Ok(())
}
