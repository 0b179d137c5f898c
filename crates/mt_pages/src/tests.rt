use crate::{PAGE_SIZE, Pages, PagesFault};
use mt_journal::Body;
use mt_machine::{Area, CallKind, FailList, Machine, MemMachine, QuietMachine};
use std::alloc::Global;
use std::test::Fail;

/// A machine whose pages begin with these bytes.
fn machine_of(alloc: Global, bytes: &[u8]) -> Result<QuietMachine, Fail> {
    let mut machine = QuietMachine::new(alloc);
    let front = bytes.first_chunk::<21>().map_or(bytes, |front| front);
    machine.write(Area::Pages, 0, front)?;
    Ok(machine)
}

/// The first bytes of page 0, and how many pages they count; 0 is for damage.
const CONTROLS: [(&[u8], u64); 11] = [
    (b"", 1),
    (b"\0\0\0\0\0\0\0\0\0\0\0\0\0\0\0\0\0\0\0\0\x01", 1),
    (b"CHNKFLD1\x01\0\0\0\x02\0\0\0\0\0\0\0", 2),
    (b"CHNKFLD1\x01\0\0\0\0\0\0\x10\0\0\0\0", 1 << 28),
    (b"CHNKFLD1\x01\0\0\0\x01\0\0\x10\0\0\0\0", 0),
    (b"CHNKFLD1\x01\0\0\0\0\0\0\0\x01\0\0\0", 0),
    (b"CHNKFLD1\x01\0\0\0\0\0\0\0\0\0\0\0", 0),
    (b"CHNKFLD1\x02\0\0\0\x02\0\0\0\0\0\0\0", 0),
    (b"CHNKFLD1\0\0\0\0\x02\0\0\0\0\0\0\0", 0),
    (b"CHNKFLD2\x01\0\0\0\x02\0\0\0\0\0\0\0", 0),
    (b"\0\0\0\0\0\0\0\0\0\0\0\0\0\0\0\0\0\0\0\x01", 0),
];

#[test]
fn page_zero_counts_the_pages(rt: HostRuntime) -> Result<(), Fail> {
    for (bytes, wanted) in CONTROLS {
        let mut machine = machine_of(rt.alloc(), bytes)?;
        let count = match Pages::load(&mut machine) {
            Ok(pages) => pages.count(),
            Err(PagesFault::Damaged) => 0,
            Err(PagesFault::Disk) => 9,
        };
        assert_eq!(rt; count, wanted, "of {bytes:?}");
    }
    Ok(())
}

/// The first page of table 16 on a blank disk: the page, and page 0 that counts it.
#[test]
fn a_new_page_is_counted(rt: HostRuntime) -> Result<(), Fail> {
    let alloc = rt.alloc();
    let mut machine = QuietMachine::new(alloc);
    let mut pages = Pages::load(&mut machine)?;
    assert!(rt; pages.count() == 1);
    let mut body = Body::new(alloc)?;
    pages.plan_new_page(16, 1, &mut body)?;
    assert_eq!(rt; body.len(), 2);
    let mut wanted = [0; PAGE_SIZE];
    wanted[0] = 0x10;
    assert_eq!(rt; body.position(0), 4096);
    assert_eq!(rt; body.bytes(0), wanted.as_slice());
    assert_eq!(rt; body.position(1), 0);
    assert_eq!(rt;
        body.bytes(1),
        b"CHNKFLD1\x01\0\0\0\x02\0\0\0\0\0\0\0".as_slice()
    );
    pages.committed(1);
    assert_eq!(rt; pages.count(), 2);
    Ok(())
}

/// The last page that there may be.
#[test]
fn the_last_page_is_planned(rt: HostRuntime) -> Result<(), Fail> {
    let alloc = rt.alloc();
    let mut machine = machine_of(alloc, b"CHNKFLD1\x01\0\0\0\xFF\xFF\xFF\x0F\0\0\0\0")?;
    let pages = Pages::load(&mut machine)?;
    assert!(rt; pages.count() == (1 << 28) - 1);
    let mut body = Body::new(alloc)?;
    pages.plan_new_page(31, 1, &mut body)?;
    assert_eq!(rt; body.len(), 2);
    assert_eq!(rt; body.position(0), 0xFF_FFFF_F000);
    assert_eq!(rt;
        body.bytes(1),
        b"CHNKFLD1\x01\0\0\0\0\0\0\x10\0\0\0\0".as_slice()
    );
    Ok(())
}

#[test]
fn a_page_is_its_bytes(rt: HostRuntime) -> Result<(), Fail> {
    let mut machine = machine_of(rt.alloc(), b"CHNKFLD1\x01\0\0\0\x03\0\0\0\0\0\0\0")?;
    machine.write(Area::Pages, 8192, b"second")?;
    let mut pages = Pages::load(&mut machine)?;
    assert!(rt; pages.count() == 3);
    let mut page = [9; PAGE_SIZE];
    pages.read(&mut machine, 2, &mut page)?;
    assert_eq!(rt; &page[..7], b"second\0".as_slice());
    assert!(rt; page[7..].iter().all(|byte| *byte == 0));
    Ok(())
}

#[test]
fn faults_of_the_disk_are_told(rt: HostRuntime) -> Result<(), Fail> {
    let mut fails = FailList::new(rt.alloc());
    fails.push(CallKind::Read, 1)?;
    fails.push(CallKind::Read, 3)?;
    let mut machine = MemMachine::new(rt.alloc(), fails);
    assert!(rt; matches!(Pages::load(&mut machine), Err(PagesFault::Disk)));
    let mut pages = Pages::load(&mut machine)?;
    let mut page = [0; PAGE_SIZE];
    assert!(rt; pages.count() == 1);
    assert!(rt; pages.read(&mut machine, 0, &mut page).is_err());
    Ok(())
}
