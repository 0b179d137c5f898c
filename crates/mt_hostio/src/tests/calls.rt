//! Calls on a machine over the fake, each looked at: its answer, the counts of faults, and the files.

use super::fake::{Call, Fake, Outside, Shared, Stored, Trouble, enter};
use crate::FolderMachine;
use mt_machine::{Area, Failed, Machine};
use std::alloc::{AllocError, Global};
use std::fs::Files;
use std::io::ErrorKind;
use std::sync::Arc;
use std::test::Fail;
use std::thread::Threads;

/// A call on a machine: an area, a position and a length, and the byte that is written so many times.
#[derive(Clone, Copy, Debug)]
pub enum Ask {
    Read(Area, u32, u32),
    Write(Area, u32, u32, u8),
    Sync,
    Emit,
}

/// What the two files held before a call.
#[derive(Drop)]
struct Held {
    log: Vec<u8>,
    pages: Vec<u8>,
}

impl Held {
    fn of(alloc: Global, outside: &Outside) -> Result<Held, AllocError> {
        Ok(Held {
            log: Vec::from_slice(alloc, &outside.log.bytes)?,
            pages: Vec::from_slice(alloc, &outside.pages.bytes)?,
        })
    }
}

// Makes the call, and answers what it read.
fn make<M: Machine>(alloc: Global, machine: &mut M, ask: Ask) -> Result<Vec<u8>, Failed> {
    let mut read = Vec::new(alloc);
    match ask {
        Ask::Read(area, at, length) => {
            read.resize(length as usize, 9).map_err(|_| Failed)?;
            machine.read(area, u64::from(at), &mut read)?;
        }
        Ask::Write(area, at, length, byte) => {
            let bytes = Vec::from_elem(alloc, byte, length as usize).map_err(|_| Failed)?;
            machine.write(area, u64::from(at), &bytes)?;
        }
        Ask::Sync => machine.sync()?,
        Ask::Emit => machine.emit(b"out")?,
    }
    Ok(read)
}

// Whether an area grew by zeros alone.
fn grew(old: &[u8], new: &[u8]) -> bool {
    match new.strip_prefix(old) {
        Some(more) => more.iter().all(|byte| *byte == 0),
        None => false,
    }
}

// Whether an area is as it was but for the range that the call asks to write.
fn keeps(ask: Ask, area: Area, old: &[u8], new: &[u8]) -> bool {
    let (start, end) = match ask {
        Ask::Write(written, at, length, _) if written == area => {
            (at as usize, at as usize + length as usize)
        }
        _ => (0, 0),
    };
    grew(&old[..start.min(old.len())], &new[..start.min(new.len())])
        && grew(&old[end.min(old.len())..], &new[end.min(new.len())..])
}

fn stored(outside: &Outside, area: Area) -> &[u8] {
    match area {
        Area::Log => &outside.log.bytes,
        Area::Pages => &outside.pages.bytes,
    }
}

fn is_durable(file: &Stored) -> bool {
    file.bytes.as_slice() == file.durable.as_slice()
}

// Whether the call did what one that succeeds has to do.
fn did(ask: Ask, read: &[u8], outside: &Outside) -> bool {
    match ask {
        Ask::Read(area, at, _) => {
            let held = stored(outside, area);
            let held = &held[held.len().min(at as usize)..];
            grew(&held[..held.len().min(read.len())], read)
        }
        Ask::Write(area, at, length, byte) => {
            match stored(outside, area).get(at as usize..at as usize + length as usize) {
                Some(written) => written.iter().all(|held| *held == byte),
                None => false,
            }
        }
        Ask::Sync => outside.named && is_durable(&outside.log) && is_durable(&outside.pages),
        Ask::Emit => true,
    }
}

// Whether trouble at a call of the system makes the call on the machine fail.
fn is_fault(call: Call, trouble: Trouble) -> bool {
    match (call, trouble) {
        (_, Trouble::Moves) => false,
        // what a thread needs may be missing
        (Call::Copy | Call::Pipe, _) => false,
        (Call::Read | Call::Write | Call::Step, Trouble::Fails(ErrorKind::Interrupted)) => false,
        (Call::Step, Trouble::Fails(kind)) => kind != ErrorKind::StorageFull,
        _ => true,
    }
}

/// A machine over the fake, and what is to be seen of it.
#[derive(Drop)]
pub struct Trial<R: Files + Threads + Drop> {
    alloc: Global,
    outside: Shared,
    machine: FolderMachine<Fake<R>>,
    disk_faults: u64,
    emit_faults: u64,
    sync_failed: bool,
}

impl<R: Files + Threads + Drop> Trial<R> {
    /// A folder machine over a fake of the runtime's files, which nothing was asked of yet.
    pub fn new(rt: R, alloc: Global, outside: &Shared) -> Result<Trial<R>, AllocError> {
        Ok(Trial {
            alloc,
            outside: Arc::try_clone(outside)?,
            machine: FolderMachine::new(Fake {
                rt,
                outside: Arc::try_clone(outside)?,
            }),
            disk_faults: 0,
            emit_faults: 0,
            sync_failed: false,
        })
    }

    /// Makes the calls, looks at each, and answers how many of them failed.
    pub fn make_all(&mut self, asks: &[Ask]) -> Result<u64, Fail> {
        let mut failed = 0u64;
        for ask in asks {
            let answer = self.make_one(*ask)?;
            failed = failed.saturating_add(u64::from(answer.is_err()));
        }
        Ok(failed)
    }

    // Makes a call, and fails where something that is to be seen of it is wrong.
    fn make_one(&mut self, ask: Ask) -> Result<Result<(), Failed>, Fail> {
        let old = Held::of(self.alloc, &*enter(&self.outside)?)?;
        let answer = make(self.alloc, &mut self.machine, ask);
        let outside = Arc::try_clone(&self.outside)?;
        let mut outside = enter(&outside)?;
        let met = outside.met.take();
        let is_to_fail = self.is_to_fail(ask, met, outside.trouble);
        let did = match &answer {
            Ok(read) => !is_to_fail && did(ask, read, &outside),
            Err(Failed) => is_to_fail,
        };
        if did
            && keeps(ask, Area::Log, &old.log, &outside.log.bytes)
            && keeps(ask, Area::Pages, &old.pages, &outside.pages.bytes)
            && self.machine.disk_faults == self.disk_faults
            && self.machine.emit_faults == self.emit_faults
        {
            return Ok(answer.map(|_| ()));
        }
        let (calls, trouble) = (outside.calls, outside.trouble);
        Err(Fail::new(format_args!("{ask:?} after {calls} calls: {met:?} {trouble:?}")))
    }

    // Whether a call is to fail in which this call of the system went wrong. If so, it is counted.
    fn is_to_fail(&mut self, ask: Ask, met: Option<Call>, trouble: Trouble) -> bool {
        let fails = met.is_some_and(|call| is_fault(call, trouble));
        if let Ask::Emit = ask {
            self.emit_faults = self.emit_faults.saturating_add(u64::from(fails));
            return fails;
        }
        let fails = fails || self.sync_failed;
        self.sync_failed = self.sync_failed || (fails && met == Some(Call::Sync));
        self.disk_faults = self.disk_faults.saturating_add(u64::from(fails));
        fails
    }
}
