ghost use Rattle.std.specs.Prelude.{◌≡◌, ◌+◌, ◌-◌, ◌≤◌, ◌^◌, IsTrue, IsErr, IfOk, ◌↔◌, [], length, slice_index};

use crate::recording::Recording;
use crate::schedule::Schedule;
use crate::{Area, Bytes, CallKind, FailList, Failed, Fill, Machine, Stopped};
use mt_list::List;
use std::alloc::{AllocError, Global};

/// A machine in memory of which those calls fail that a list names. Where a growth of its own finds
/// no memory, the call answers as if it had found it, and the machine tells nothing from then on.
#[derive(Debug, Drop)]
pub struct MemMachine {
    recording: Recording,
    schedule: Schedule,
    disk_faults: u64,
    emit_faults: u64,
}

impl MemMachine {
    ghost use Rattle.mt_machine.specs.Image.{blank_disk, disk_of};
    ghost use Rattle.mt_machine.specs.InMemory.{IsFresh, mem_meaning, mem_run};
    ghost use Rattle.mt_machine.specs.Schedule.{IsUncalled};
    ghost use Rattle.mt_machine.specs.Stops.{IsStopIn};

    /// A machine on which nothing was written, and of which the named calls fail. It takes no
    /// memory until it grows.
    pub fn new(alloc: Global, fails: FailList) -> MemMachine
        ensures meaning { IsFresh blank_disk (mem_meaning result) }
        ensures schedule { IsUncalled fails result.schedule }
    {
        MemMachine::from_image(alloc, List::new(alloc), List::new(alloc), fails)
    }

    /// A machine whose areas hold these bytes, that has put nothing out, and of which the named
    /// calls fail.
    pub fn from_image(alloc: Global, log: Bytes, pages: Bytes, fails: FailList) -> MemMachine
        ensures meaning { IsFresh (disk_of log pages) (mem_meaning result) }
        ensures schedule { IsUncalled fails result.schedule }
    {
        MemMachine {
            recording: Recording::new(alloc, log, pages),
            schedule: Schedule::new(fails),
            disk_faults: 0,
            emit_faults: 0,
        }
    }

    /// Whether the machine still tells what it holds.
    pub fn telling(&self) -> bool
        ensures { result ≡ (mem_meaning self.now).tells }
    {
        self.recording.contents().telling()
    }

    /// What was put out.
    pub fn output(&self) -> &[u8]
        ensures { result.now ≡ (mem_meaning self.now).output }
    {
        self.recording.contents().output()
    }

    /// The bytes of the log up to the last that was written.
    pub fn log(&self) -> &[u8]
        ensures { slice_index result.now ≡ (mem_meaning self.now).content Area.Log }
    {
        self.recording.contents().image().log()
    }

    /// The bytes of the pages up to the last that was written.
    pub fn pages(&self) -> &[u8]
        ensures { slice_index result.now ≡ (mem_meaning self.now).content Area.Pages }
    {
        self.recording.contents().image().pages()
    }

    /// The number of calls on the areas and the output so far, failed ones too.
    pub fn calls(&self) -> u64
        ensures { result ≡ (mem_meaning self.now).clock }
    {
        self.recording.len() as u64
    }

    /// What a stop within a call leaves, the first call being 1. `AllocError` is want of memory.
    pub fn stopped_in(&self, call: u64, fill: Fill) -> Result<Stopped, AllocError>
        requires tells { IsTrue (mem_meaning self.now).tells }
        requires from { 1 ≤ call }
        requires to { call ≤ (mem_meaning self.now).clock }
        ensures moment { IfOk result (λ stopped. (mem_meaning self.now).since (call - 1) (disk_of stopped.log stopped.pages) stopped.out) }
        ensures stop { IfOk result (IsStopIn fill (mem_run self.now).first (mem_run self.now).steps call) }
    {
        self.recording.stopped_in(call as usize, fill)
    }
}

// Each call fails exactly where the list of fails names it by its kind and ordinal.
impl Machine for MemMachine {
    ghost use Rattle.mt_machine.specs.InMemory.{mem_meaning, mem_run, write_step, sync_step, emit_step};
    ghost use Rattle.mt_machine.specs.Calls.{Reads, Writes, Syncs, Emits};
    ghost use Rattle.mt_machine.specs.Run.{TakesStep};
    ghost use Rattle.mt_machine.specs.declared.step.Step.TheVariants.{Passed};
    ghost use Rattle.mt_machine.specs.Schedule.{FailsNext, CountsCall};
    ghost use Rattle.mt_machine.specs.RunLaws.{run_content_is_image, run_counts_now, run_only_now};

    ghost meaning = { mem_meaning };

    ghost beneath = { λ _ _. Unit {0} };

    ghost beneath_itself = { λ _. tt };

    ghost beneath_both = { λ _ _ _ _ _. tt };

    ghost moments_told = { λ _ told. told };

    ghost content_is_image = { λ machine. run_content_is_image (mem_run machine) machine.recording.tied };

    ghost counts_now = { λ machine. run_counts_now (mem_run machine) machine.recording.tied };

    ghost only_now = { λ machine. run_only_now (mem_run machine) machine.recording.tied };

    fn read(&mut self, area: Area, at: u64, buf: &mut [u8]) -> Result<(), Failed>
        requires { at + length buf.old ≤ 2 ^ 42 }
        ensures effect { Reads result area at buf.new (mem_meaning self.old) (mem_meaning self.new) }
        ensures step { TakesStep Passed (mem_run self.old) (mem_run self.new) }
        ensures fails { IsErr result ↔ FailsNext self.old.schedule CallKind.Read }
        ensures counted { CountsCall CallKind.Read self.old.schedule self.new.schedule }
    {
        self.recording.pass();
        if self.schedule.fails_now(CallKind::Read) {
            self.disk_faults = self.disk_faults.saturating_add(1);
            return Err(Failed);
        }
        self.recording.contents().read(area, at, buf);
        Ok(())
    }

    // A call that fails leaves the first half of the bytes written.
    fn write(&mut self, area: Area, at: u64, bytes: &[u8]) -> Result<(), Failed>
        requires { at + length bytes.now ≤ 2 ^ 42 }
        ensures effect { Writes result area at bytes.now (mem_meaning self.old) (mem_meaning self.new) }
        ensures step { TakesStep (write_step result area at bytes.now) (mem_run self.old) (mem_run self.new) }
        ensures fails { IsErr result ↔ FailsNext self.old.schedule CallKind.Write }
        ensures counted { CountsCall CallKind.Write self.old.schedule self.new.schedule }
    {
        if self.schedule.fails_now(CallKind::Write) {
            let half = bytes.len() / 2;
            self.recording
                .write(area, at, &bytes[..half], bytes.len() - half);
            self.disk_faults = self.disk_faults.saturating_add(1);
            return Err(Failed);
        }
        self.recording.write(area, at, bytes, 0);
        Ok(())
    }

    // A call that fails makes nothing durable.
    fn sync(&mut self) -> Result<(), Failed>
        ensures effect { Syncs result (mem_meaning self.old) (mem_meaning self.new) }
        ensures step { TakesStep (sync_step result) (mem_run self.old) (mem_run self.new) }
        ensures fails { IsErr result ↔ FailsNext self.old.schedule CallKind.Sync }
        ensures counted { CountsCall CallKind.Sync self.old.schedule self.new.schedule }
    {
        let fails = self.schedule.fails_now(CallKind::Sync);
        self.recording.sync(!fails);
        if fails {
            self.disk_faults = self.disk_faults.saturating_add(1);
            return Err(Failed);
        }
        Ok(())
    }

    // A call that fails puts out the first half of the bytes.
    fn emit(&mut self, bytes: &[u8]) -> Result<(), Failed>
        ensures effect { Emits result bytes.now (mem_meaning self.old) (mem_meaning self.new) }
        ensures step { TakesStep (emit_step result bytes.now) (mem_run self.old) (mem_run self.new) }
        ensures fails { IsErr result ↔ FailsNext self.old.schedule CallKind.Emit }
        ensures counted { CountsCall CallKind.Emit self.old.schedule self.new.schedule }
    {
        if self.schedule.fails_now(CallKind::Emit) {
            self.recording.emit(&bytes[..bytes.len() / 2]);
            self.emit_faults = self.emit_faults.saturating_add(1);
            return Err(Failed);
        }
        self.recording.emit(bytes);
        Ok(())
    }
}
