ghost use Rattle.std.specs.Prelude.{◌≡◌, ◌≤◌, [], ◌∷◌, length, All, IfOk};
ghost use Rattle.mt_codec.specs.declared.field.FieldKind.TheVariants as kinds;
ghost use Rattle.mt_rowfile.specs.declared.layout.Head.TheVariants.{Conventional};
ghost use Rattle.mt_rowfile.specs.Layouts.{IsLayout};
ghost use Rattle.mt_places.specs.Named.{table_of};
ghost use Rattle.mt_staging.specs.Group.{IsAsked, Suits};
ghost use Rattle.mt_staging.specs.States.{group_of};
ghost use Rattle.mt_tables.specs.Rows.{catalogue_layout};

use crate::{Group, StageFault};
use mt_codec::FieldKind;
use mt_list::List;
use mt_machine::QuietMachine;
use mt_pages::{PAGE_SIZE, Pages, PagesFault};
use mt_physplan::{Change, Changes};
use mt_places::Places;
use mt_rowfile::{CatBody, Head, Layout, SlotRow};
use mt_value::Value;
use std::alloc::{AllocError, Global};
use std::test::Fail;

/// A change of table 16, of the slot of a row of tenant 1.
#[derive(Clone, Copy)]
enum RowStep {
    Put(u64),
    /// Its mark becomes that of the trashcan.
    Trash(u64),
    Remove(u64),
}

/// A change of table 10, of one slot.
#[derive(Clone, Copy)]
enum BodyStep {
    Put,
    Remove,
}

/// The layout of table 16: slots of 22 bytes with one integer, 185 a page.
fn row_layout(alloc: Global) -> Result<Layout, AllocError>
    ensures { IfOk result (λ layout. layout ≡ record { head = Conventional; kinds = kinds.Int ∷ [] }) }
{
    Ok(Layout {
        head: Head::Conventional,
        kinds: List::from_vec(Vec::from_slice(alloc, &[FieldKind::Int])?),
    })
}

/// The slot of a row, with the integer 5.
fn row_change(alloc: Global, step: RowStep) -> Result<Change, AllocError>
    ensures suits { IfOk result (λ change. Suits (record { head = Conventional; kinds = kinds.Int ∷ [] }) change) }
    ensures table { IfOk result (λ change. table_of change ≤ 31) }
{
    Ok(match step {
        RowStep::Put(row) => {
            let mut values = List::new(alloc);
            values.push(Value::Int(5))?;
            let slot = SlotRow {
                mark: 1,
                tenant: 1,
                base: 0,
                chunk: 0,
                row,
                values,
            };
            Change::Put { table: 16, slot }
        }
        RowStep::Trash(row) => Change::Mark {
            table: 16,
            tenant: 1,
            row,
            mark: 2,
        },
        RowStep::Remove(row) => Change::Remove {
            table: 16,
            tenant: 1,
            base: 0,
            chunk: 0,
            row,
        },
    })
}

/// Changes of table 16.
fn row_changes(alloc: Global, steps: &[RowStep]) -> Result<Changes, AllocError>
    ensures suit { IfOk result (λ changes. All (Suits (record { head = Conventional; kinds = kinds.Int ∷ [] })) changes) }
    ensures tables { IfOk result (λ changes. All (λ change. table_of change ≤ 31) changes) }
    ensures count { IfOk result (λ changes. length changes ≡ length steps.now) }
{
    let mut changes: Changes = List::new(alloc);
    for step in steps {
        changes.push(row_change(alloc, *step)?)?;
    }
    Ok(changes)
}

/// A change of a slot of table 10.
fn body_change(alloc: Global, step: BodyStep) -> Result<Change, AllocError>
    ensures suits { IfOk result (λ change. Suits (catalogue_layout 10) change) }
    ensures table { IfOk result (λ change. table_of change ≤ 31) }
{
    let body: CatBody = List::from_vec(Vec::from_slice(alloc, b"\x01\0\0\0\x02\0\0\0")?);
    Ok(match step {
        BodyStep::Put => Change::PutCat { table: 10, body },
        BodyStep::Remove => Change::RemoveCat { table: 10, body },
    })
}

/// Changes of table 10.
fn body_changes(alloc: Global, steps: &[BodyStep]) -> Result<Changes, AllocError>
    ensures suit { IfOk result (λ changes. All (Suits (catalogue_layout 10)) changes) }
    ensures tables { IfOk result (λ changes. All (λ change. table_of change ≤ 31) changes) }
    ensures count { IfOk result (λ changes. length changes ≡ length steps.now) }
{
    let mut changes: Changes = List::new(alloc);
    for step in steps {
        changes.push(body_change(alloc, *step)?)?;
    }
    Ok(changes)
}

/// A group of no ranges that asks for what the changes name.
fn begun(alloc: Global, changes: &Changes) -> Result<Group, AllocError>
    requires { length changes.now ≤ 1000 }
    ensures asked { IfOk result (λ group. All (λ change. IsAsked change (group_of group).places) changes.now) }
    ensures empty { IfOk result (λ group. (group_of group).ranges ≡ []) }
{
    let places = Places::new(alloc, changes)?;
    Group::new(alloc, places)
}

/// The group of the changes of one table, on these pages, which have no slots of it.
fn staged(
    alloc: Global,
    layout: &Layout,
    pages: &Pages,
    changes: &Changes,
) -> Result<Group, StageFault>
    requires layout { IsLayout layout.now }
    requires few { length changes.now ≤ 1000 }
    requires suit { All (Suits layout.now) changes.now }
    requires tables { All (λ change. table_of change ≤ 31) changes.now }
{
    let mut group = begun(alloc, changes)?;
    for i in 0..changes.len() {
        group.add(layout, pages, changes.get(i))?;
    }
    Ok(group)
}

/// The group of changes of table 16.
fn rows_staged(alloc: Global, pages: &Pages, steps: &[RowStep]) -> Result<Group, StageFault>
    requires { length steps.now ≤ 1000 }
{
    let layout = row_layout(alloc)?;
    let changes = row_changes(alloc, steps)?;
    staged(alloc, &layout, pages, &changes)
}

/// The group of changes of table 10.
fn bodies_staged(alloc: Global, pages: &Pages, steps: &[BodyStep]) -> Result<Group, StageFault>
    requires { length steps.now ≤ 1000 }
{
    let layout = Layout {
        head: Head::Catalogue(10),
        kinds: List::new(alloc),
    };
    let changes = body_changes(alloc, steps)?;
    staged(alloc, &layout, pages, &changes)
}

/// The pages of an empty disk: page 0 alone.
fn no_pages(alloc: Global) -> Result<Pages, PagesFault> {
    let mut machine = QuietMachine::new(alloc);
    Pages::load(&mut machine)
}

#[test]
fn a_put_makes_a_page(rt: HostRuntime) -> Result<(), Fail> {
    let alloc = rt.alloc();
    let pages = no_pages(alloc)?;
    let group = rows_staged(alloc, &pages, &[RowStep::Put(0)])?;
    let body = group.body();
    assert_eq!(rt; body.len(), 3);
    let mut page = [0; PAGE_SIZE];
    page[0] = 16;
    assert_eq!(rt; body.position(0), 4096);
    assert_eq!(rt; body.bytes(0), page.as_slice());
    assert_eq!(rt; body.position(1), 0);
    assert_eq!(rt;
        body.bytes(1),
        b"CHNKFLD1\x01\0\0\0\x02\0\0\0\0\0\0\0".as_slice()
    );
    assert_eq!(rt; body.position(2), 4104);
    assert_eq!(rt;
        body.bytes(2),
        b"\x01\x01\0\0\0\0\0\0\0\0\0\0\0\x01\x05\0\0\0\0\0\0\0".as_slice()
    );
    assert_eq!(rt; group.added_count(), 1);
    assert_eq!(rt; group.added_table(0), 16);
    assert!(rt; group.taken(16) == 1 && group.freed(16) == 0);
    assert!(rt; group.taken(17) == 0 && group.taken(99) == 0 && group.freed(99) == 0);
    Ok(())
}

/// A page has 185 slots.
#[test]
fn a_full_page_is_followed_by_another(rt: HostRuntime) -> Result<(), Fail> {
    let alloc = rt.alloc();
    let pages = no_pages(alloc)?;
    let mut steps = Vec::new(alloc);
    for row in 0..185 {
        steps.push(RowStep::Put(row))?;
    }
    assert_eq!(rt; steps.len(), 185);
    let group = rows_staged(alloc, &pages, &steps)?;
    assert_eq!(rt; group.added_count(), 1);
    assert_eq!(rt; group.body().len(), 187);
    assert_eq!(rt; group.body().position(186), 8152);
    steps.push(RowStep::Put(185))?;
    assert_eq!(rt; steps.len(), 186);
    let group = rows_staged(alloc, &pages, &steps)?;
    assert_eq!(rt; group.added_count(), 2);
    assert_eq!(rt; group.added_table(1), 16);
    assert_eq!(rt; group.taken(16), 186);
    assert_eq!(rt; group.body().len(), 190);
    assert_eq!(rt; group.body().position(187), 8192);
    assert_eq!(rt; group.body().position(189), 8200);
    Ok(())
}

/// A slot that is freed is not taken by the group that frees it.
#[test]
fn a_row_is_marked_and_removed(rt: HostRuntime) -> Result<(), Fail> {
    let alloc = rt.alloc();
    let pages = no_pages(alloc)?;
    let steps = [
        RowStep::Put(0),
        RowStep::Trash(0),
        RowStep::Put(0),
        RowStep::Remove(0),
        RowStep::Put(1),
    ];
    let group = rows_staged(alloc, &pages, &steps)?;
    let body = group.body();
    assert_eq!(rt; body.len(), 7);
    assert_eq!(rt; body.position(3), 4104);
    assert_eq!(rt; body.bytes(3), [2].as_slice());
    assert_eq!(rt; body.position(4), 4104);
    assert_eq!(rt; body.bytes(4), body.bytes(2));
    assert_eq!(rt; body.position(5), 4104);
    assert_eq!(rt; body.bytes(5), [0].as_slice());
    assert_eq!(rt; body.position(6), 4126);
    assert!(rt; group.taken(16) == 2 && group.freed(16) == 1);
    Ok(())
}

#[test]
fn what_does_not_stand_is_a_fault_of_the_disk(rt: HostRuntime) -> Result<(), Fail> {
    let alloc = rt.alloc();
    let pages = no_pages(alloc)?;
    for step in [RowStep::Trash(0), RowStep::Remove(0)] {
        let removed = rows_staged(alloc, &pages, &[RowStep::Put(0), RowStep::Remove(0), step]);
        assert!(rt; matches!(removed, Err(StageFault::Disk)));
        let never = rows_staged(alloc, &pages, &[RowStep::Put(1), step]);
        assert!(rt; matches!(never, Err(StageFault::Disk)));
    }
    let body = bodies_staged(alloc, &pages, &[BodyStep::Remove]);
    assert!(rt; matches!(body, Err(StageFault::Disk)));
    assert_eq!(rt; StageFault::from(AllocError), StageFault::Memory);
    Ok(())
}

#[test]
fn a_slot_of_the_catalogue_is_put_and_removed(rt: HostRuntime) -> Result<(), Fail> {
    let alloc = rt.alloc();
    let pages = no_pages(alloc)?;
    let steps = [BodyStep::Put, BodyStep::Put, BodyStep::Remove];
    let group = bodies_staged(alloc, &pages, &steps)?;
    let body = group.body();
    assert_eq!(rt; body.len(), 5);
    assert_eq!(rt; body.position(2), 4104);
    assert_eq!(rt; body.bytes(2), b"\x01\x01\0\0\0\x02\0\0\0".as_slice());
    assert_eq!(rt; body.position(3), 4104);
    assert_eq!(rt; body.bytes(3), body.bytes(2));
    assert_eq!(rt; body.position(4), 4104);
    assert_eq!(rt; body.bytes(4), [0].as_slice());
    assert!(rt; group.taken(10) == 1 && group.freed(10) == 1);
    Ok(())
}
