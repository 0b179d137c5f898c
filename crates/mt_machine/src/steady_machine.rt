ghost use Rattle.std.specs.Prelude.{◌≡◌, IsTrue, [], slice_index};

use crate::recording::Recording;
use crate::{Area, Bytes, Failed, Machine};
use mt_list::List;
use std::alloc::Global;

/// A machine in memory of which no call fails. Where a growth of its own finds no memory, the call
/// answers as if it had found it, and the machine tells nothing from then on.
#[derive(Debug, Drop)]
pub struct SteadyMachine {
    recording: Recording,
}

impl SteadyMachine {
    ghost use Rattle.mt_machine.specs.Image.{blank_disk, disk_of};
    ghost use Rattle.mt_machine.specs.InMemory.{IsFresh, steady_meaning};

    /// A machine on which nothing was written. It takes no memory until it grows.
    pub fn new(alloc: Global) -> SteadyMachine
        ensures { IsFresh blank_disk (steady_meaning result) }
    {
        SteadyMachine::from_image(alloc, List::new(alloc), List::new(alloc))
    }

    /// A machine whose areas hold these bytes, and that has put nothing out.
    pub fn from_image(alloc: Global, log: Bytes, pages: Bytes) -> SteadyMachine
        ensures { IsFresh (disk_of log pages) (steady_meaning result) }
    {
        SteadyMachine {
            recording: Recording::new(alloc, log, pages),
        }
    }

    /// Whether the machine still tells what it holds.
    pub fn telling(&self) -> bool
        ensures { result ≡ (steady_meaning self.now).tells }
    {
        self.recording.contents().telling()
    }

    /// What was put out.
    pub fn output(&self) -> &[u8]
        ensures { result.now ≡ (steady_meaning self.now).output }
    {
        self.recording.contents().output()
    }

    /// The bytes of the log up to the last that was written.
    pub fn log(&self) -> &[u8]
        ensures { slice_index result.now ≡ (steady_meaning self.now).content Area.Log }
    {
        self.recording.contents().image().log()
    }

    /// The bytes of the pages up to the last that was written.
    pub fn pages(&self) -> &[u8]
        ensures { slice_index result.now ≡ (steady_meaning self.now).content Area.Pages }
    {
        self.recording.contents().image().pages()
    }
}

impl Machine for SteadyMachine {
    ghost use Rattle.mt_machine.specs.InMemory.{steady_meaning, steady_run};
    ghost use Rattle.mt_machine.specs.RunLaws.{run_content_is_image, run_counts_now, run_only_now};

    ghost meaning = { steady_meaning };

    ghost beneath = { λ _ _. Unit {0} };

    ghost beneath_itself = { λ _. tt };

    ghost beneath_both = { λ _ _ _ _ _. tt };

    ghost moments_told = { λ _ told. told };

    ghost content_is_image = { λ machine. run_content_is_image (steady_run machine) machine.recording.tied };

    ghost counts_now = { λ machine. run_counts_now (steady_run machine) machine.recording.tied };

    ghost only_now = { λ machine. run_only_now (steady_run machine) machine.recording.tied };

    fn read(&mut self, area: Area, at: u64, buf: &mut [u8]) -> Result<(), Failed> {
        self.recording.pass();
        self.recording.contents().read(area, at, buf);
        Ok(())
    }

    fn write(&mut self, area: Area, at: u64, bytes: &[u8]) -> Result<(), Failed> {
        self.recording.write(area, at, bytes, 0);
        Ok(())
    }

    fn sync(&mut self) -> Result<(), Failed> {
        self.recording.sync(true);
        Ok(())
    }

    fn emit(&mut self, bytes: &[u8]) -> Result<(), Failed> {
        self.recording.emit(bytes);
        Ok(())
    }
}
