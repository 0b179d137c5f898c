ghost use Rattle.std.specs.Prelude.{◌≡◌, ◌+◌, ◌≤◌, ◌<◌, ◌^◌, IfOk, OnOk, IsTrue, length};
ghost use Rattle.mt_machine.specs.InMemory.{mem_meaning};
ghost use Rattle.mt_journal.specs.Commits.{StandsFor};

use crate::{
    Body, Journal, RangeAt, RecoverFault, chains_are_determined, next_group, next_range,
    standing_is_kept,
};
use mt_list::List;
use mt_machine::{
    Area, Bytes, CallKind, FailList, Failed, Fill, Machine, MemMachine, SteadyMachine, Stopped,
};
use std::alloc::{AllocError, Global};
use std::test::Fail;

/// The log after 41 42 was committed to position 0, and then 43 to position 4096.
const LOG: [u8; 54] = [
    0xA5, 18, 0, 0, 0, 0, 0, 0, 0, 1, 0, 0, 0, 0, 0, 0, 0, 0, 0, 0, 0, 2, 0, 0, 0, 0x41, 0x42,
    0xA5, 17, 0, 0, 0, 0, 0, 0, 0, 1, 0, 0, 0, 0, 0x10, 0, 0, 0, 0, 0, 0, 1, 0, 0, 0, 0x43, 0,
];

/// A group whose one range ends behind the pages.
const FAR: [u8; 27] = [
    0xA5, 18, 0, 0, 0, 0, 0, 0, 0, 1, 0, 0, 0, 0, 0, 0, 0, 0, 1, 0, 0, 2, 0, 0, 0, 0x41, 0x42,
];

const FILLS: [Fill; 4] = [
    Fill::Kept,
    Fill::Byte(0),
    Fill::Byte(0xA5),
    Fill::Byte(0xFF),
];

fn list_of(alloc: Global, bytes: &[u8]) -> Result<Bytes, AllocError> {
    Ok(List::from_vec(Vec::from_slice(alloc, bytes)?))
}

/// A machine in memory with this log and empty pages.
fn machine_of(alloc: Global, log: &[u8]) -> Result<MemMachine, AllocError> {
    Ok(MemMachine::from_image(
        alloc,
        list_of(alloc, log)?,
        List::new(alloc),
        FailList::new(alloc),
    ))
}

/// The journal of a machine, whose log was replayed.
fn opened<M: Machine>(m: &mut M) -> Result<Journal, RecoverFault>
    ensures start { IfOk result (λ journal. journal ≤ 0) }
    ensures stands { IfOk result (λ journal. StandsFor journal (M.meaning m.new)) }
{
    let journal = Journal::recover(m)?;
    Ok(journal)
}

/// Commits one range.
fn commit_range<M: Machine>(
    alloc: Global,
    journal: &mut Journal,
    m: &mut M,
    at: u64,
    bytes: &[u8],
) -> Result<(), Fail>
    requires stands { StandsFor journal.old (M.meaning m.old) }
    requires short { journal.old ≤ 1000 }
    requires within { at ≤ 5000 }
    requires few { length bytes.now ≤ 100 }
    ensures stands { OnOk result (StandsFor journal.new (M.meaning m.new)) }
    ensures longer { OnOk result (journal.new ≤ journal.old + 200) }
{
    let mut body = Body::new(alloc)?;
    body.push(at, bytes)?;
    journal.commit(m, &body)?;
    Ok(())
}

/// The first range of the group at a place, if the group has one.
fn first_range<M: Machine>(m: &mut M, at: u64) -> Result<Option<RangeAt>, Fail>
    requires { at < 2 ^ 42 }
{
    match next_group(m, at)? {
        Some(group) if group.length >= 16 => Ok(Some(next_range(m, group.at + 4)?)),
        _ => Ok(None),
    }
}

/// What the pages hold at 0, 1 and 4096.
fn held<M: Machine>(m: &mut M) -> Result<[u8; 3], Failed> {
    let mut near = [9; 2];
    m.read(Area::Pages, 0, &mut near)?;
    let mut far = [9; 1];
    m.read(Area::Pages, 4096, &mut far)?;
    Ok([near[0], near[1], far[0]])
}

/// What the pages hold after a stop within a call, and a recovery.
fn held_after(alloc: Global, machine: &MemMachine, call: u64, fill: Fill) -> Result<[u8; 3], Fail>
    requires tells { IsTrue (mem_meaning machine.now).tells }
    requires from { 1 ≤ call }
    requires to { call ≤ (mem_meaning machine.now).clock }
{
    let Stopped { log, pages, out: _ } = machine.stopped_in(call, fill)?;
    let mut image = MemMachine::from_image(alloc, log, pages, FailList::new(alloc));
    Journal::recover(&mut image)?;
    Ok(held(&mut image)?)
}

#[test]
fn bodies_give_their_ranges(rt: HostRuntime) -> Result<(), Fail> {
    let mut body = Body::new(rt.alloc())?;
    body.push(7, b"AB")?;
    body.push(1 << 39, b"")?;
    assert_eq!(rt; body.len(), 2);
    assert_eq!(rt; body.size(), 30);
    assert_eq!(rt; body.position(1), 1 << 39);
    assert_eq!(rt; body.bytes(0), b"AB".as_slice());
    Ok(())
}

#[test]
fn commits_lie_byte_for_byte(rt: HostRuntime) -> Result<(), Fail> {
    let alloc = rt.alloc();
    let mut machine = SteadyMachine::new(alloc);
    let mut journal = opened(&mut machine)?;
    commit_range(alloc, &mut journal, &mut machine, 0, b"AB")?;
    assert_eq!(rt; machine.log(), [&LOG[..27], &[0]].concat(alloc)?.as_slice());
    commit_range(alloc, &mut journal, &mut machine, 4096, b"C")?;
    assert_eq!(rt; machine.log(), LOG.as_slice());
    assert!(rt; !journal.needs_reset());
    assert_eq!(rt; journal.tail(), 53);
    journal.reset(&mut machine)?;
    assert_eq!(rt; machine.log().first().copied(), Some(0));
    assert_eq!(rt; held(&mut machine)?, *b"ABC");
    Ok(())
}

#[test]
fn logs_are_replayed(rt: HostRuntime) -> Result<(), Fail> {
    let mut machine = machine_of(rt.alloc(), &LOG)?;
    let range = first_range(&mut machine, 27)?.ok_or("none")?;
    assert_eq!(rt; (range.position, range.length), (4096, 1));
    assert_eq!(rt; (range.bytes_at, range.next), (52, 53));
    Journal::recover(&mut machine)?;
    assert_eq!(rt; held(&mut machine)?, *b"ABC");
    assert_eq!(rt; machine.pages().len(), 4097);
    assert!(rt; next_group(&mut machine, 0)?.is_none());
    chains_are_determined();
    standing_is_kept::<MemMachine>();
    Ok(())
}

#[test]
fn damaged_logs_are_left_alone(rt: HostRuntime) -> Result<(), Fail> {
    let alloc = rt.alloc();
    let cut = [&LOG[..53], &[0xA5, 17]].concat(alloc)?;
    for log in [&[0xA5, 0, 0], FAR.as_slice(), cut.as_slice()] {
        let mut machine = machine_of(alloc, log)?;
        let fault = Journal::recover(&mut machine).err();
        assert_eq!(rt; fault, Some(RecoverFault::Damaged), "{log:?}");
        assert_eq!(rt; machine.log(), log);
        assert!(rt; machine.pages().is_empty());
    }
    Ok(())
}

#[test]
fn each_stop_leaves_before_or_after(rt: HostRuntime) -> Result<(), Fail> {
    let alloc = rt.alloc();
    let mut machine = MemMachine::new(alloc, FailList::new(alloc));
    let mut journal = opened(&mut machine)?;
    commit_range(alloc, &mut journal, &mut machine, 0, b"AB")?;
    let one = machine.calls();
    commit_range(alloc, &mut journal, &mut machine, 4096, b"C")?;
    let two = machine.calls();
    journal.reset(&mut machine)?;
    assert!(rt; machine.telling());
    for call in 1..=machine.calls() {
        let (before, after) = if call <= one {
            (*b"\0\0\0", *b"AB\0")
        } else if call <= two {
            (*b"AB\0", *b"ABC")
        } else {
            (*b"ABC", *b"ABC")
        };
        for fill in FILLS {
            let pages = held_after(alloc, &machine, call, fill)?;
            assert!(rt; pages == before || pages == after, "{call} {fill:?}");
        }
    }
    Ok(())
}

#[test]
fn each_stop_of_a_recovery_replays(rt: HostRuntime) -> Result<(), Fail> {
    let alloc = rt.alloc();
    let mut machine = machine_of(alloc, &LOG)?;
    Journal::recover(&mut machine)?;
    assert!(rt; machine.telling());
    for call in 1..=machine.calls() {
        for fill in FILLS {
            assert_eq!(rt;
                held_after(alloc, &machine, call, fill)?,
                *b"ABC",
                "{call} {fill:?}"
            );
        }
    }
    Ok(())
}

#[test]
fn faults_of_the_disk_are_told(rt: HostRuntime) -> Result<(), Fail> {
    let alloc = rt.alloc();
    let mut fails = FailList::new(alloc);
    fails.push(CallKind::Read, 1)?;
    let mut machine = MemMachine::new(alloc, fails);
    assert_eq!(rt;
        Journal::recover(&mut machine).err(),
        Some(RecoverFault::Disk)
    );
    Ok(())
}
