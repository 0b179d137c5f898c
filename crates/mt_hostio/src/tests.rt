use crate::{FolderMachine, StdinSource};
use mt_machine::{Area, Machine};
use std::fs;
use std::io::ErrorKind;
use std::os::unix::fs::PermissionsExt;
use std::sync::Arc;
use std::test::Fail;

mod calls;
mod fake;

use calls::{Ask, Trial};
use fake::{Outside, Trouble, enter};

/// Removes what a machine has left in the current folder.
fn clear(rt: &HostRuntime) {
    let _ = fs::remove_file(rt, "fold.log");
    let _ = fs::remove_file(rt, "fold.pages");
}

#[test]
fn keeps_what_is_written(rt: HostRuntime) -> Result<(), Fail> {
    clear(&rt);
    let mut machine = FolderMachine::new(&rt);
    machine.write(Area::Log, 3, b"ab")?;
    machine.sync()?;
    machine.sync()?;
    for path in ["fold.log", "fold.pages"] {
        assert_eq!(rt;
            fs::metadata(&rt, path)?.permissions().mode() & 0o777,
            0o600
        );
    }

    // another machine waits for nothing, and opens the files once they are free
    let mut again = FolderMachine::new(&rt);
    let mut log = [7u8; 6];
    assert!(rt; again.read(Area::Log, 0, &mut log).is_err());
    assert_eq!(rt; again.disk_faults, 1);
    drop(machine);
    again.read(Area::Log, 0, &mut log)?;
    assert_eq!(rt; log.as_slice(), [0, 0, 0, 97, 98, 0].as_slice());
    let mut pages = [7u8; 2];
    again.read(Area::Pages, 4096, &mut pages)?;
    assert_eq!(rt; pages.as_slice(), [0, 0].as_slice());
    again.emit(b"put out\n")?;
    clear(&rt);
    Ok(())
}

/// A recovery of an empty log, two commits of one range, and a sync of the pages alone.
const COMMITS: [Ask; 15] = [
    Ask::Sync,
    Ask::Read(Area::Log, 0, 9),
    Ask::Write(Area::Log, 1, 8, b'l'),
    Ask::Write(Area::Log, 9, 20, b'b'),
    Ask::Write(Area::Log, 29, 1, 0),
    Ask::Sync,
    Ask::Write(Area::Log, 0, 1, 0xa5),
    Ask::Sync,
    // the range in place, and the next commit
    Ask::Write(Area::Pages, 4096, 8, b'r'),
    Ask::Write(Area::Log, 30, 8, b'l'),
    Ask::Sync,
    Ask::Write(Area::Log, 29, 1, 0xa5),
    Ask::Sync,
    Ask::Write(Area::Pages, 4104, 8, b'r'),
    Ask::Sync,
];

/// What is aside is done by the thread, before or after the line above it.
const COMMIT_NOTES: &str = "\
open log
lock log
length log
write log 0 65536
open pages
length pages
open folder
sync log
sync pages aside
sync folder
read log 0 9
write log 1 8
write log 9 20
write log 29 1
sync log
write log 0 1
sync log
write pages 4096 8
write log 30 8
sync log
sync pages aside
write log 29 1
sync log
write pages 4104 8
sync pages
";

#[test]
fn commits_are_synced_in_order(rt: HostRuntime) -> Result<(), Fail> {
    let alloc = rt.alloc();
    let outside = Outside::shared(alloc, 0, Trouble::Moves)?;
    assert_eq!(rt; Trial::new(&rt, alloc, &outside)?.make_all(&COMMITS)?, 0);
    let notes = enter(&outside)?.notes.replace(
        alloc,
        "sync pages aside\nsync log\n",
        "sync log\nsync pages aside\n",
    )?;
    assert_eq!(rt; notes.as_str(), COMMIT_NOTES);

    // where there is no thread the caller syncs both
    let outside = Outside::shared(alloc, 0, Trouble::Moves)?;
    enter(&outside)?.alone = true;
    assert_eq!(rt; Trial::new(&rt, alloc, &outside)?.make_all(&COMMITS)?, 0);
    let notes = COMMIT_NOTES.replace(alloc, " aside", "")?;
    assert_eq!(rt; enter(&outside)?.notes.as_str(), notes.as_str());
    Ok(())
}

/// Writes to both files, a sync, and a call of each kind after it.
const BOTH: [Ask; 7] = [
    Ask::Write(Area::Log, 0, 4, b'a'),
    Ask::Write(Area::Pages, 0, 4, b'b'),
    Ask::Sync,
    Ask::Read(Area::Log, 0, 4),
    Ask::Write(Area::Pages, 4, 4, b'c'),
    Ask::Emit,
    Ask::Sync,
];

#[test]
fn both_files_are_synced_at_once(rt: HostRuntime) -> Result<(), Fail> {
    let alloc = rt.alloc();
    let outside = Outside::shared(alloc, 0, Trouble::Moves)?;
    enter(&outside)?.together = true;
    let mut trial = Trial::new(&rt, alloc, &outside)?;
    assert_eq!(rt; trial.make_all(&BOTH)?, 0);

    // nothing is left of the thread, nor of the file that it had
    drop(trial);
    assert_eq!(rt; Arc::strong_count(&outside), 1);
    Ok(())
}

#[test]
fn thread_may_fail_to_sync(rt: HostRuntime) -> Result<(), Fail> {
    let alloc = rt.alloc();
    let trouble = Trouble::Fails(ErrorKind::Uncategorized);
    let outside = Outside::shared(alloc, 0, trouble)?;
    enter(&outside)?.together = true;
    enter(&outside)?.stuck = true;
    let mut trial = Trial::new(&rt, alloc, &outside)?;
    // the first sync, and all after it but the emit
    assert_eq!(rt; trial.make_all(&BOTH)?, 4);
    enter(&outside)?.stuck = false;
    assert_eq!(rt; trial.make_all(&BOTH)?, 6);
    let outside = enter(&outside)?;
    assert_eq!(rt;
        outside.log.durable.as_slice(),
        outside.log.bytes.as_slice()
    );
    assert!(rt; outside.pages.durable.is_empty());
    assert!(rt; outside.notes.contains("sync pages aside"));
    Ok(())
}

/// Calls that need more than one step of zeros; one write among them is longer than a step.
const STEPS: [Ask; 9] = [
    Ask::Write(Area::Log, 0, 4, b'a'),
    Ask::Write(Area::Log, 65_530, 12, b'b'),
    Ask::Sync,
    Ask::Write(Area::Log, 131_000, 140_000, b'c'),
    Ask::Emit,
    Ask::Write(Area::Log, 271_000, 4, b'd'),
    Ask::Write(Area::Pages, 5, 4, b'e'),
    Ask::Sync,
    Ask::Read(Area::Log, 65_520, 140_000),
];

/// Calls on the files that these leave.
const AGAIN: [Ask; 4] = [
    Ask::Read(Area::Pages, 0, 20),
    Ask::Write(Area::Log, 340_000, 4, b'f'),
    Ask::Sync,
    Ask::Read(Area::Log, 0, 340_010),
];

const TROUBLES: [Trouble; 5] = [
    Trouble::Moves,
    Trouble::Fails(ErrorKind::Interrupted),
    Trouble::Fails(ErrorKind::StorageFull),
    Trouble::Fails(ErrorKind::PermissionDenied),
    Trouble::Fails(ErrorKind::Uncategorized),
];

#[test]
fn each_call_may_go_wrong(rt: HostRuntime) -> Result<(), Fail> {
    for trouble in TROUBLES {
        let mut calls = 0;
        for wrong in 1..60 {
            let outside = Outside::shared(rt.alloc(), wrong, trouble)?;
            Trial::new(&rt, rt.alloc(), &outside)?.make_all(&STEPS)?;
            Trial::new(&rt, rt.alloc(), &outside)?.make_all(&AGAIN)?;
            let outside = enter(&outside)?;
            assert!(rt; outside.said.is_empty());
            calls = outside.calls;
        }
        // each of them went wrong once
        assert!(rt; calls < 59, "{trouble:?} {calls}");
    }
    Ok(())
}

#[test]
fn disk_may_be_full(rt: HostRuntime) -> Result<(), Fail> {
    let trouble = Trouble::Fails(ErrorKind::StorageFull);
    let outside = Outside::shared(rt.alloc(), 0, trouble)?;
    enter(&outside)?.room = 65_600;
    let mut trial = Trial::new(&rt, rt.alloc(), &outside)?;
    // there is no room for a second step, and there is for some bytes
    assert_eq!(rt;
        trial.make_all(&[Ask::Write(Area::Log, 65_530, 12, b'a'), Ask::Sync])?,
        0
    );
    assert_eq!(rt;
        trial.make_all(&[Ask::Write(Area::Log, 65_590, 12, b'b')])?,
        1
    );
    assert_eq!(rt;
        trial.make_all(&[Ask::Read(Area::Log, 65_520, 100), Ask::Sync])?,
        0
    );
    Ok(())
}

#[test]
fn folder_may_be_held(rt: HostRuntime) -> Result<(), Fail> {
    let trouble = Trouble::Fails(ErrorKind::WouldBlock);
    let outside = Outside::shared(rt.alloc(), 0, trouble)?;
    enter(&outside)?.held = true;
    let mut trial = Trial::new(&rt, rt.alloc(), &outside)?;
    assert_eq!(rt; trial.make_all(&STEPS)?, 8);
    {
        let mut outside = enter(&outside)?;
        assert_eq!(rt;
            outside.said.as_str(),
            "foldsql: another process has this folder\n"
        );
        assert!(rt; outside.log.bytes.is_empty() && outside.pages.bytes.is_empty());
        outside.held = false;
    }
    assert_eq!(rt; trial.make_all(&STEPS)?, 0);
    Ok(())
}

#[test]
fn reads_nothing_before_the_first_take(rt: HostRuntime) {
    let _source = StdinSource::new(&rt);
}
