ghost use Rattle.std.specs.Prelude.{◌≡◌, ◌<◌, ◌^◌, ℕ, List, IfOk, IsTrue, OnOk};
ghost use Rattle.std.specs.FinMap as finite;
ghost use Rattle.mt_rowfile.specs.Layouts.{IsLayout};
ghost use Rattle.mt_physplan.specs.declared.key.Key.{Key};
ghost use Rattle.mt_tables.specs.Rows.{catalogue_layout, layout_of};
ghost use Rattle.mt_places.specs.Held.{state_of};

use crate::Places;
use mt_codec::FieldKind;
use mt_list::List;
use mt_physplan::{Change, Changes, Key};
use mt_rowfile::{CatBody, Head, Layout, SlotRow, chunk_layout};
use std::alloc::{AllocError, Global};
use std::test::Fail;

/// The key of the row that is put.
const KEY: Key = Key {
    table: 20,
    tenant: 35,
    base: 0,
    chunk: 0,
    row: 7,
};

/// A layout of which a page has two slots of 1561 bytes.
fn wide_layout(alloc: Global) -> Result<Layout, AllocError>
    ensures sound { IfOk result (λ layout. IsLayout layout) }
{
    Ok(Layout {
        head: Head::Conventional,
        kinds: List::from_vec(Vec::from_elem(alloc, FieldKind::Text(255), 6)?),
    })
}

/// The layout of table 10, of which a page has slots of 9 bytes.
fn narrow_layout(alloc: Global) -> Layout
    ensures layout { result ≡ catalogue_layout 10 }
    ensures sound { IsLayout result }
{
    Layout {
        head: Head::Catalogue(10),
        kinds: List::new(alloc),
    }
}

/// A body of a slot of table 10.
fn body(alloc: Global) -> Result<CatBody, AllocError> {
    Ok(List::from_vec(Vec::from_slice(alloc, b"\x01\0\0\0\x02\0\0\0")?))
}

/// Asks for a row that is put into table 20, and for a slot of the catalogue that is put into table
/// 10.
fn asked(alloc: Global, body: CatBody) -> Result<Places, AllocError>
    ensures rows { IfOk result (λ places. IsTrue (finite.contains_key (state_of places).rows KEY)) }
    ensures bodies { IfOk result (λ places. IsTrue (finite.contains_key (state_of places).bodies (10, body))) }
{
    let slot = SlotRow {
        mark: 1,
        tenant: KEY.tenant,
        base: KEY.base,
        chunk: KEY.chunk,
        row: KEY.row,
        values: List::new(alloc),
    };
    let mut changes: Changes = List::new(alloc);
    changes.push(Change::Put {
        table: KEY.table,
        slot,
    })?;
    changes.push(Change::PutCat { table: 10, body })?;
    Places::new(alloc, &changes)
}

/// Looks at a page of a table whose layout is known.
fn look(
    places: &mut Places,
    layout: &Layout,
    table: u32,
    page: u64,
    bytes: &[u8; 4096],
) -> Result<(), AllocError>
    requires layout { IsLayout layout.now }
    requires page { page < 2 ^ 28 }
    requires known { layout_of (λ _. Some layout.now) table ≡ Some layout.now }
    ensures rows { OnOk result ((key : Key) → IsTrue (finite.contains_key (state_of places.old).rows key) → IsTrue (finite.contains_key (state_of places.new).rows key)) }
    ensures bodies { OnOk result ((key : ℕ × List ℕ) → IsTrue (finite.contains_key (state_of places.old).bodies key) → IsTrue (finite.contains_key (state_of places.new).bodies key)) }
{
    places.look(layout, table, page, bytes)
}

#[test]
fn a_row_is_found_and_placed(rt: HostRuntime) -> Result<(), Fail> {
    let alloc = rt.alloc();
    let layout = wide_layout(alloc)?;
    let mut places = asked(alloc, body(alloc)?)?;
    assert!(rt; places.names(20) && places.names(10) && !places.names(21));
    assert_eq!(rt; places.row(&KEY), None);
    // The second slot has the row; the first one is free.
    let mut bytes = [0; 4096];
    bytes[1569..1582].copy_from_slice(b"\x01\x23\0\0\0\x07\0\0\0\0\0\0\0");
    look(&mut places, &layout, 20, 3, &bytes)?;
    assert_eq!(rt; places.row(&KEY), Some(13857));
    assert_eq!(rt; places.take_free(20), Some(12296));
    assert_eq!(rt; places.take_free(20), None);
    assert_eq!(rt; places.take_free(99), None);
    places.set_row(&KEY, None);
    assert_eq!(rt; places.row(&KEY), None);
    Ok(())
}

#[test]
fn a_row_of_another_tenant_is_not_found(rt: HostRuntime) -> Result<(), Fail> {
    let alloc = rt.alloc();
    let layout = wide_layout(alloc)?;
    let mut places = asked(alloc, body(alloc)?)?;
    let mut bytes = [0; 4096];
    bytes[8..21].copy_from_slice(b"\x01\x24\0\0\0\x07\0\0\0\0\0\0\0");
    look(&mut places, &layout, 20, 3, &bytes)?;
    assert_eq!(rt; places.row(&KEY), None);
    Ok(())
}

#[test]
fn a_slot_of_the_catalogue_is_found_and_placed(rt: HostRuntime) -> Result<(), Fail> {
    let alloc = rt.alloc();
    let layout = narrow_layout(alloc);
    let sought = body(alloc)?;
    let mut places = asked(alloc, sought.copy()?)?;
    assert_eq!(rt; places.body(10, &sought), None);
    let mut bytes = [0; 4096];
    bytes[8..17].copy_from_slice(b"\x01\x01\0\0\0\x02\0\0\0");
    look(&mut places, &layout, 10, 5, &bytes)?;
    assert_eq!(rt; places.body(10, &sought), Some(20488));
    // One slot is put, so that one free one is kept.
    assert_eq!(rt; places.take_free(10), Some(20497));
    assert_eq!(rt; places.take_free(10), None);
    places.set_body(10, &sought, Some(7));
    assert_eq!(rt; places.body(10, &sought), Some(7));
    Ok(())
}

#[test]
fn a_new_page_is_offered(rt: HostRuntime) -> Result<(), Fail> {
    let alloc = rt.alloc();
    let layout = chunk_layout(alloc, 4)?;
    let mut places = asked(alloc, body(alloc)?)?;
    assert_eq!(rt; places.take_free(4), None);
    places.offer_page(&layout, 4, 9)?;
    // A page has 71 slots of 57 bytes.
    for i in 0..71 {
        assert_eq!(rt; places.take_free(4), Some(36872 + 57 * i));
    }
    assert_eq!(rt; places.take_free(4), None);
    Ok(())
}
