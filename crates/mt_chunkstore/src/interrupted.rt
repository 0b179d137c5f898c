ghost use Rattle.std.specs.Prelude.{◌≤◌, ◌^◌, All, IfOk, length};
ghost use Rattle.mt_directory.specs.Known.{known_in};
ghost use Rattle.mt_staging.specs.States.{group_of};
ghost use Rattle.mt_chunkstore.specs.Changes.{IsSuited};
ghost use Rattle.mt_chunkstore.specs.Staged.{IsStaged};
ghost use Rattle.mt_chunkstore.specs.Standing.{Stands};

use crate::steps::Step::{Put, PutChunk, PutQuota, Remove};
use crate::steps::{CHUNKS, Fault, ROWS, Seen, changes, commit, opened, seen};
use crate::tests::list_of;
use crate::{Staged, Store, StoreFault};
use mt_list::List;
use mt_machine::{CallKind, FailList, Failed, Fill, Machine, MemMachine, SteadyMachine, Stopped};
use mt_physplan::{Changes, PhysFault};
use mt_staging::StageFault;
use std::alloc::{AllocError, Global};
use std::test::Fail;

const FILLS: [Fill; 4] = [
    Fill::Kept,
    Fill::Byte(0),
    Fill::Byte(0xA5),
    Fill::Byte(0xFF),
];

/// The calls of a group of one Row, in turn, what is answered where one fails, and how many Rows there
/// are then: the store is opened, the layout added, the group staged; the group is written behind its
/// gate, the gate alone, and the slot. With the gate the Row is there.
const FAILS: [(CallKind, u64, Fault, usize); 13] = [
    (CallKind::Sync, 1, Fault::Open(StoreFault::Disk), 1),
    (CallKind::Read, 1, Fault::Open(StoreFault::Disk), 1),
    (CallKind::Read, 2, Fault::Open(StoreFault::Disk), 1),
    (CallKind::Read, 3, Fault::Open(StoreFault::Disk), 1),
    (CallKind::Read, 4, Fault::Look(PhysFault::Disk), 1),
    (CallKind::Read, 5, Fault::Stage(StageFault::Disk), 1),
    (CallKind::Write, 1, Fault::Commit(Failed), 1),
    (CallKind::Write, 2, Fault::Commit(Failed), 1),
    (CallKind::Write, 3, Fault::Commit(Failed), 1),
    (CallKind::Sync, 2, Fault::Commit(Failed), 1),
    (CallKind::Write, 4, Fault::Commit(Failed), 1),
    (CallKind::Sync, 3, Fault::Commit(Failed), 2),
    (CallKind::Write, 5, Fault::Commit(Failed), 2),
];

/// How much of a group a stop left.
#[derive(Clone, Copy, Debug, PartialEq, Eq)]
enum Left {
    Nothing,
    Part,
    Whole,
}

/// The machine that a stop within a call leaves, where the machine tells of that call.
fn stopped_in(
    alloc: Global,
    machine: &MemMachine,
    call: u64,
    fill: Fill,
) -> Result<Option<MemMachine>, AllocError> {
    if !machine.telling() || call == 0 || call > machine.calls() {
        return Ok(None);
    }
    let Stopped { log, pages, out: _ } = machine.stopped_in(call, fill)?;
    let fails = FailList::new(alloc);
    Ok(Some(MemMachine::from_image(alloc, log, pages, fails)))
}

/// How much the store of a machine has of the group that removes Row 0, puts Row 1 and puts chunk 4.
fn left_in<M: Machine>(m: &mut M, alloc: Global) -> Result<Left, Fault> {
    let rows = seen(m, alloc, &ROWS)?;
    let chunks = seen(m, alloc, &CHUNKS)?;
    Ok(left_of(rows.as_slice(), chunks.as_slice()))
}

/// The same by its Rows and its chunks, each a Row, its mark and its number.
fn left_of(rows: &[Seen], chunks: &[Seen]) -> Left {
    if rows == [(0, 1, 5)].as_slice() && chunks.is_empty() {
        return Left::Nothing;
    }
    if rows == [(1, 1, 5)].as_slice() && chunks == [(4, 1, 5)].as_slice() {
        return Left::Whole;
    }
    Left::Part
}

/// How much a stop within a call leaves of that group.
fn left_by_stop(alloc: Global, machine: &MemMachine, call: u64, fill: Fill) -> Result<Left, Fault> {
    match stopped_in(alloc, machine, call, fill)? {
        Some(mut stopped) => left_in(&mut stopped, alloc),
        None => Ok(Left::Part),
    }
}

/// The same for each way in which what was written since the last sync may lie there.
fn left_by_stops(alloc: Global, machine: &MemMachine, call: u64) -> Result<Vec<Left>, Fault> {
    let mut all = Vec::new(alloc);
    for fill in FILLS {
        all.push(left_by_stop(alloc, machine, call, fill)?)?;
    }
    Ok(all)
}

/// The group is of two tables. Once it was committed, the calls that read it are stopped too.
#[test]
fn each_stop_leaves_the_group_or_none(rt: HostRuntime) -> Result<(), Fail> {
    let alloc = rt.alloc();
    let mut machine = MemMachine::new(alloc, FailList::new(alloc));
    commit(&mut machine, alloc, &[Put(0)])?;
    let begun = machine.calls();
    commit(&mut machine, alloc, &[Remove(0), Put(1), PutChunk(4)])?;
    let committed = machine.calls();
    seen(&mut machine, alloc, &ROWS)?;
    assert!(rt; begun < committed && committed < machine.calls());
    for before in begun..machine.calls() {
        let all = left_by_stops(alloc, &machine, before + 1)?;
        assert_eq!(rt; all.len(), FILLS.len());
        assert!(rt; all.iter().all(|left| *left != Left::Part), "{before}");
        assert!(rt;
            before < committed || all.iter().all(|left| *left == Left::Whole),
            "{before}"
        );
    }
    Ok(())
}

/// A machine with these pages and an empty log, of which a call fails.
fn failing(
    alloc: Global,
    pages: &[u8],
    kind: CallKind,
    call: u64,
) -> Result<MemMachine, AllocError> {
    let mut fails = FailList::new(alloc);
    fails.push(kind, call)?;
    let pages = list_of(alloc, pages)?;
    Ok(MemMachine::from_image(alloc, List::new(alloc), pages, fails))
}

/// What a commit of Row 1 answers on such a machine, and how many Rows are there then.
fn commit_failing(
    alloc: Global,
    pages: &[u8],
    kind: CallKind,
    call: u64,
) -> Result<(Option<Fault>, usize), Fault> {
    let mut machine = failing(alloc, pages, kind, call)?;
    let answer = commit(&mut machine, alloc, &[Put(1)]).err();
    let rows = seen(&mut machine, alloc, &ROWS)?;
    Ok((answer, rows.len()))
}

#[test]
fn each_failing_call_is_answered(rt: HostRuntime) -> Result<(), Fail> {
    let alloc = rt.alloc();
    let mut laid = SteadyMachine::new(alloc);
    commit(&mut laid, alloc, &[Put(0)])?;
    for (kind, call, fault, rows) in FAILS {
        let answer = commit_failing(alloc, laid.pages(), kind, call)?;
        assert_eq!(rt; answer, (Some(fault), rows), "{kind:?} {call}");
    }
    let mut machine = failing(alloc, laid.pages(), CallKind::Emit, 1)?;
    commit(&mut machine, alloc, &[Put(1)])?;
    assert_eq!(rt; machine.calls(), 13);
    assert_eq!(rt; seen(&mut machine, alloc, &ROWS)?.len(), 2);
    Ok(())
}

#[test]
fn a_failing_scan_is_answered(rt: HostRuntime) -> Result<(), Fail> {
    let alloc = rt.alloc();
    let mut laid = SteadyMachine::new(alloc);
    commit(&mut laid, alloc, &[Put(0)])?;
    let mut machine = failing(alloc, laid.pages(), CallKind::Read, 5)?;
    let answer = seen(&mut machine, alloc, &ROWS).err();
    assert_eq!(rt; answer, Some(Fault::Look(PhysFault::Disk)));
    assert_eq!(rt; seen(&mut machine, alloc, &ROWS)?.len(), 1);
    Ok(())
}

/// Stages changes, and once more where no memory was found.
fn stage_at_last<M: Machine>(
    store: &mut Store,
    m: &mut M,
    alloc: Global,
    changes: &Changes,
) -> Result<Staged, StageFault>
    requires stands { Stands store.old (M.meaning m.old) }
    requires few { length changes.now ≤ 2 ^ 22 }
    requires suited { All (IsSuited (known_in store.old.layouts)) changes.now }
    ensures staged { IfOk result (λ staged. IsStaged changes.now (group_of staged.group) store.new (M.meaning m.new)) }
    ensures stands { Stands store.new (M.meaning m.new) }
{
    match store.stage(m, alloc, changes) {
        Err(StageFault::Memory) => store.stage(m, alloc, changes),
        staged => staged,
    }
}

/// Here no memory is wanting, but the tests can be run so that one allocation fails. A machine that
/// found no memory for a record of its own tells nothing.
#[test]
fn a_store_serves_on_after_want_of_memory(rt: HostRuntime) -> Result<(), Fail> {
    let alloc = rt.alloc();
    let changes = changes(alloc, &[Put(0), PutChunk(4), PutQuota])?;
    let mut machine = SteadyMachine::new(alloc);
    let mut store = opened(&mut machine, alloc)?;
    let staged = stage_at_last(&mut store, &mut machine, alloc, &changes)?;
    store.commit(&mut machine, staged)?;
    let told = machine.telling();
    let rows = seen(&mut machine, alloc, &ROWS)?;
    assert!(rt; !told || rows.as_slice() == [(0, 1, 5)].as_slice());
    Ok(())
}
