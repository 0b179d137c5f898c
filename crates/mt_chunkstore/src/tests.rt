ghost use Rattle.std.specs.Prelude.{◌≡◌, ◌∷◌, [], IfOk};
ghost use Rattle.mt_codec.specs.declared.field.FieldKind.TheVariants.{Int};
ghost use Rattle.mt_rowfile.specs.declared.layout.Head.TheVariants.{Conventional};
ghost use Rattle.mt_rowfile.specs.Layouts.{IsLayout};

use crate::{Sizes, Store, StoreFault, TableSize, staging_is_kept, standing_is_kept};
use mt_codec::FieldKind;
use mt_list::List;
use mt_machine::{Area, Bytes, CallKind, FailList, Failed, Machine, MemMachine, SteadyMachine};
use mt_pages::PAGE_SIZE;
use mt_physplan::PhysFault;
use mt_rowfile::{Head, Layout};
use std::alloc::{AllocError, Global};
use std::test::Fail;

/// Page 0 where it counts itself and two pages more.
const CONTROL: [u8; 20] = *b"CHNKFLD1\x01\0\0\0\x03\0\0\0\0\0\0\0";

/// The table of chunks of one integer, with its page and the two slots that are in use there.
const CHUNKS: TableSize = TableSize {
    table: 1,
    pages: 1,
    used: 2,
};

/// Writes page 0, a page of table 1, whose slots of 30 bytes are free but for the first and the third,
/// and one of table 16, whose slots of 22 bytes are free but for the first and the last.
fn lay_pages<M: Machine>(m: &mut M) -> Result<(), Failed> {
    m.write(Area::Pages, 0, &CONTROL)?;
    m.write(Area::Pages, 4096, b"\x01\0\0\0\0\0\0\0\x01")?;
    m.write(Area::Pages, 4164, &[7])?;
    m.write(Area::Pages, 8192, b"\x10\0\0\0\0\0\0\0\x01")?;
    m.write(Area::Pages, 12248, &[1])?;
    Ok(())
}

pub(crate) fn list_of(alloc: Global, bytes: &[u8]) -> Result<Bytes, AllocError>
    ensures { IfOk result (λ list. list ≡ bytes.now) }
{
    Ok(List::from_vec(Vec::from_slice(alloc, bytes)?))
}

/// Why a machine with this log and these pages is not opened.
fn fault_of(alloc: Global, log: &[u8], pages: &[u8]) -> Result<Option<StoreFault>, AllocError> {
    let log = list_of(alloc, log)?;
    let pages = list_of(alloc, pages)?;
    let mut machine = MemMachine::from_image(alloc, log, pages, FailList::new(alloc));
    Ok(Store::load(&mut machine, alloc).err())
}

#[test]
fn an_empty_disk_has_page_zero(rt: HostRuntime) -> Result<(), Fail> {
    let alloc = rt.alloc();
    let mut machine = SteadyMachine::new(alloc);
    let store = Store::load(&mut machine, alloc)?;
    assert_eq!(rt; store.pages(), 1);
    assert!(rt; store.sizes(alloc)?.as_slice().is_empty());
    standing_is_kept::<MemMachine>();
    staging_is_kept::<MemMachine>();
    Ok(())
}

#[test]
fn pages_are_looked_at(rt: HostRuntime) -> Result<(), Fail> {
    let alloc = rt.alloc();
    let mut machine = SteadyMachine::new(alloc);
    lay_pages(&mut machine)?;
    let mut store = Store::load(&mut machine, alloc)?;
    assert!(rt; store.pages() == 3);
    assert_eq!(rt; store.sizes(alloc)?.as_slice(), [CHUNKS].as_slice());
    let mut page = [9; PAGE_SIZE];
    store.read_page(&mut machine, 2, &mut page)?;
    assert_eq!(rt; &page[..10], b"\x10\0\0\0\0\0\0\0\x01\0".as_slice());
    assert_eq!(rt; &page[4055..4058], [0, 1, 0].as_slice());
    Ok(())
}

pub(crate) fn one_integer(alloc: Global) -> Result<Layout, AllocError>
    ensures layout { IfOk result (λ layout. layout ≡ record { head = Conventional; kinds = Int ∷ [] }) }
    ensures head { IfOk result (λ layout. layout.head ≡ Conventional) }
    ensures sound { IfOk result (λ layout. IsLayout layout) }
{
    Ok(Layout {
        head: Head::Conventional,
        kinds: List::from_vec(Vec::from_slice(alloc, &[FieldKind::Int])?),
    })
}

/// What stands in the way of a layout of table 16 where the pages are laid, and the sizes then.
fn sizes_with_layout<M: Machine>(
    m: &mut M,
    alloc: Global,
) -> Result<(Option<PhysFault>, Sizes), Fail> {
    lay_pages(m)?;
    let mut store = Store::load(m, alloc)?;
    let added = store.add_layout(m, 16, one_integer(alloc)?);
    Ok((added.err(), store.sizes(alloc)?))
}

#[test]
fn a_layout_counts_the_slots_of_its_table(rt: HostRuntime) -> Result<(), Fail> {
    let mut machine = SteadyMachine::new(rt.alloc());
    let (fault, sizes) = sizes_with_layout(&mut machine, rt.alloc())?;
    let rows = TableSize {
        table: 16,
        pages: 1,
        used: 2,
    };
    assert_eq!(rt; fault, None);
    assert_eq!(rt; sizes.as_slice(), [CHUNKS, rows].as_slice());
    Ok(())
}

/// A page for each number below 32, of which 7, 14 and 15 are of no table.
#[test]
fn all_tables_have_sizes(rt: HostRuntime) -> Result<(), Fail> {
    let alloc = rt.alloc();
    let mut machine = SteadyMachine::new(alloc);
    machine.write(Area::Pages, 0, b"CHNKFLD1\x01\0\0\0\x20\0\0\0\0\0\0\0")?;
    for table in 1..32 {
        machine.write(Area::Pages, 4096 * u64::from(table), &[table])?;
        machine.write(Area::Pages, 4096 * u64::from(table) + 8, &[1])?;
    }
    let mut store = Store::load(&mut machine, alloc)?;
    for table in 16..32 {
        store.add_layout(&mut machine, table, one_integer(alloc)?)?;
    }
    let mut sizes = Vec::new(alloc);
    for table in 1..32 {
        if ![7, 14, 15].contains(&table) {
            sizes.push(TableSize {
                table,
                pages: 1,
                used: 1,
            })?;
        }
    }
    assert_eq!(rt; store.sizes(alloc)?.as_slice(), sizes.as_slice());
    Ok(())
}

/// The read behind those of `load` is that of the page of table 16.
#[test]
fn a_layout_that_fails_is_not_known(rt: HostRuntime) -> Result<(), Fail> {
    let mut fails = FailList::new(rt.alloc());
    fails.push(CallKind::Read, 5)?;
    let mut machine = MemMachine::new(rt.alloc(), fails);
    let (fault, sizes) = sizes_with_layout(&mut machine, rt.alloc())?;
    assert_eq!(rt; fault, Some(PhysFault::Disk));
    assert_eq!(rt; sizes.as_slice(), [CHUNKS].as_slice());
    Ok(())
}

#[test]
fn damage_is_told(rt: HostRuntime) -> Result<(), Fail> {
    let alloc = rt.alloc();
    let none = fault_of(alloc, b"", &CONTROL)?;
    assert_eq!(rt; none, None);
    let control = fault_of(alloc, b"", b"CHNKFLD2")?;
    assert_eq!(rt; control, Some(StoreFault::Control));
    let log = fault_of(alloc, b"\xA5\0\0", b"CHNKFLD2")?;
    assert_eq!(rt; log, Some(StoreFault::Log));
    Ok(())
}

/// The reads are of the log's first gate, of page 0 and of the two pages.
#[test]
fn faults_of_the_disk_are_told(rt: HostRuntime) -> Result<(), Fail> {
    let alloc = rt.alloc();
    for (kind, call, wanted) in [
        (CallKind::Sync, 1, Some(StoreFault::Disk)),
        (CallKind::Read, 1, Some(StoreFault::Disk)),
        (CallKind::Read, 2, Some(StoreFault::Disk)),
        (CallKind::Read, 3, Some(StoreFault::Disk)),
        (CallKind::Read, 4, Some(StoreFault::Disk)),
        (CallKind::Read, 5, None),
    ] {
        let mut fails = FailList::new(alloc);
        fails.push(kind, call)?;
        let mut machine = MemMachine::new(alloc, fails);
        lay_pages(&mut machine)?;
        assert_eq!(rt;
            Store::load(&mut machine, alloc).err(),
            wanted,
            "{kind:?} {call}"
        );
    }
    assert_eq!(rt; StoreFault::from(Failed), StoreFault::Disk);
    assert_eq!(rt; StoreFault::from(AllocError), StoreFault::Memory);
    Ok(())
}
