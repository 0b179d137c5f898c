ghost use Rattle.std.specs.Prelude.{◌≡◌, IsTrue, [], slice_index};

use crate::contents::Contents;
use crate::{Area, Failed, Machine};
use mt_list::List;
use std::alloc::Global;

/// A machine in memory of which no call fails, and that keeps no record of its calls: it tells what
/// it holds and nothing of the moments before. Where a growth of its own finds no memory, the call
/// answers as if it had found it, and the machine tells nothing from then on.
#[derive(Debug, Drop)]
pub struct QuietMachine {
    contents: Contents,
}

impl QuietMachine {
    ghost use Rattle.mt_machine.specs.Image.{blank_disk};
    ghost use Rattle.mt_machine.specs.InMemory.{quiet_meaning};

    /// A machine on which nothing was written. It takes no memory until it grows.
    pub fn new(alloc: Global) -> QuietMachine
        ensures tells { IsTrue (quiet_meaning result).tells }
        ensures content { (quiet_meaning result).content ≡ blank_disk }
        ensures output { (quiet_meaning result).output ≡ [] }
    {
        QuietMachine {
            contents: Contents::new(alloc, List::new(alloc), List::new(alloc)),
        }
    }

    /// Whether the machine still tells what it holds.
    pub fn telling(&self) -> bool
        ensures { result ≡ (quiet_meaning self.now).tells }
    {
        self.contents.telling()
    }

    /// What was put out.
    pub fn output(&self) -> &[u8]
        ensures { result.now ≡ (quiet_meaning self.now).output }
    {
        self.contents.output()
    }

    /// The bytes of the log up to the last that was written.
    pub fn log(&self) -> &[u8]
        ensures { slice_index result.now ≡ (quiet_meaning self.now).content Area.Log }
    {
        self.contents.image().log()
    }

    /// The bytes of the pages up to the last that was written.
    pub fn pages(&self) -> &[u8]
        ensures { slice_index result.now ≡ (quiet_meaning self.now).content Area.Pages }
    {
        self.contents.image().pages()
    }
}

impl Machine for QuietMachine {
    ghost use Rattle.mt_machine.specs.InMemory.{quiet_meaning};
    ghost use Rattle.std.proofs.lemmas.Bool.{false≢true};

    ghost meaning = { quiet_meaning };

    ghost beneath = { λ _ _. Unit {0} };

    ghost beneath_itself = { λ _. tt };

    ghost beneath_both = { λ _ _ _ _ _. tt };

    ghost moments_told = { λ _ told. absurd (false≢true told) };

    ghost content_is_image = { λ _ _. tt };

    ghost counts_now = { λ _ _ _ _ _ _. tt };

    ghost only_now = { λ _ _ _ told. absurd (false≢true told) };

    fn read(&mut self, area: Area, at: u64, buf: &mut [u8]) -> Result<(), Failed> {
        self.contents.read(area, at, buf);
        Ok(())
    }

    fn write(&mut self, area: Area, at: u64, bytes: &[u8]) -> Result<(), Failed> {
        self.contents.write(area, at, bytes);
        Ok(())
    }

    fn sync(&mut self) -> Result<(), Failed> {
        Ok(())
    }

    fn emit(&mut self, bytes: &[u8]) -> Result<(), Failed> {
        self.contents.emit(bytes);
        Ok(())
    }
}
