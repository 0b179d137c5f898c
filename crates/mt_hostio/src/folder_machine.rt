ghost use Rattle.std.specs.Prelude.{◌≡◌};
ghost use Rattle.mt_machine.specs.Calls.{HasCause};

use crate::folder::Folder;
use crate::{Lock, SyncedAside};
use mt_machine::{Area, Failed, Machine};
use std::fs::Files;
use std::io;
use std::os::unix::fs::FileExt;
use std::thread::Threads;

/// The files `fold.log` and `fold.pages` in the current folder, and standard output.
///
/// Nothing is opened before the first call on an area, which opens both files, makes those that are
/// missing, and locks the log. Where another process has it, that call fails, and the first such
/// call says so on standard error; a later call tries again. After a sync that failed each later
/// call on an area fails. Each failed call of a kind adds one to the count of faults of that kind.
///
/// Where both files have something to sync, a thread that ends with the machine syncs the pages while the
/// caller syncs the log.
pub struct FolderMachine<R: Files + Threads + Drop> {
    rt: R,
    folder: Folder<R::File>,
    pub(crate) disk_faults: u64,
    pub(crate) emit_faults: u64,
}

impl<R: Files + Threads + Drop> Drop for FolderMachine<R> {
    fn drop(self) {
        let FolderMachine {
            rt,
            folder,
            disk_faults: _,
            emit_faults: _,
        } = self;
        folder.close(&rt);
    }
}

impl<R: Files + Print + Eprint + Threads + Drop> FolderMachine<R>
where
    R::File: FileExt + Lock + SyncedAside,
{
    /// A machine with no file open.
    pub fn new(rt: R) -> FolderMachine<R>
        ensures disk_faults { result.disk_faults ≡ 0 }
        ensures emit_faults { result.emit_faults ≡ 0 }
    {
        FolderMachine {
            rt,
            folder: Folder::new(),
            disk_faults: 0,
            emit_faults: 0,
        }
    }
}

// Counts a fault where there is one.
fn counted(outcome: io::Result<()>, faults: &mut u64) -> Result<(), Failed>
    ensures { HasCause faults.old faults.new result }
{
    if outcome.is_err() {
        *faults = faults.saturating_add(1);
        return Err(Failed);
    }
    Ok(())
}

impl<R: Files + Print + Eprint + Threads + Drop> Machine for FolderMachine<R>
where
    R::File: FileExt + Lock + SyncedAside,
{
    ghost use Rattle.std.specs.Prelude.{false, []};
    ghost use Rattle.std.proofs.lemmas.Bool.{false≢true};

    ghost meaning = { λ m. record { tells = false; content = λ _ _. 0; output = []; tells_moments = false; images = λ _. Unit {0}; clock = 0; since = λ _ _ _. Unit {0}; disk_faults = m.disk_faults; emit_faults = m.emit_faults } };

    ghost beneath = { λ _ _. Unit {0} };

    ghost beneath_itself = { λ _. tt };

    ghost beneath_both = { λ _ _ _ _ _. tt };

    ghost moments_told = { λ _ told. told };

    ghost content_is_image = { λ _ _. tt };

    ghost counts_now = { λ _ _ _ _ _ _. tt };

    ghost only_now = { λ _ _ _ told. absurd (false≢true told) };

    fn read(&mut self, area: Area, at: u64, buf: &mut [u8]) -> Result<(), Failed> {
        let outcome = self.folder.read(&self.rt, area, at, buf);
        counted(outcome, &mut self.disk_faults)
    }

    fn write(&mut self, area: Area, at: u64, bytes: &[u8]) -> Result<(), Failed> {
        let outcome = self.folder.write(&self.rt, area, at, bytes);
        counted(outcome, &mut self.disk_faults)
    }

    fn sync(&mut self) -> Result<(), Failed> {
        let outcome = self.folder.sync(&self.rt);
        counted(outcome, &mut self.disk_faults)
    }

    // Standard output is not buffered in the process, so what is written is flushed.
    fn emit(&mut self, bytes: &[u8]) -> Result<(), Failed> {
        let outcome = self.rt.write_all(bytes);
        counted(outcome, &mut self.emit_faults)
    }
}
