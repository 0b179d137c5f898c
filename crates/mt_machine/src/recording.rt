ghost use Rattle.std.specs.Prelude.{◌≡◌, ◌+◌, ◌-◌, ◌≤◌, [], ◌∷◌, ◌++◌, length, reverse, true, IsTrue, IfOk, OnOk, OnErr, IsOkAnd, is_some, if◌then◌else◌};
ghost use Rattle.mt_machine.specs.Image.{image_disk, first_disk};
ghost use Rattle.mt_machine.specs.Run.{AreOf};

use crate::contents::Contents;
use crate::image::Image;
use crate::step::Step;
use crate::stop::stop_in;
use crate::{Area, Bytes, Fill, Stopped};
use mt_list::List;
use std::alloc::{AllocError, Global};

/// What a machine in memory holds and has put out, with the record of its calls. Where the record
/// finds no memory either, nothing is told from then on.
#[derive(Debug, Drop)]
pub struct Recording {
    alloc: Global,
    contents: Contents,
    // the image before the first write, and nothing as long as that is the image itself
    first: Option<Image>,
    steps: List<Step>,
    ghost tied: { IsTrue contents.telling → AreOf (first_disk first contents.image) (reverse steps) (image_disk contents.image) contents.output.items },
}

impl Recording {
    ghost use Rattle.mt_machine.specs.Image.{disk_of};
    ghost use Rattle.mt_machine.specs.Calls.{Stand};
    ghost use Rattle.mt_machine.specs.Run.{TakesStep, fresh_run};
    ghost use Rattle.mt_machine.specs.Stops.{IsStopIn};
    ghost use Rattle.mt_machine.specs.InMemory.{run_of};

    /// A record of no step, over areas that hold these bytes.
    pub fn new(alloc: Global, log: Bytes, pages: Bytes) -> Recording
        ensures { run_of result ≡ fresh_run (disk_of log pages) }
    {
        Recording {
            alloc,
            contents: Contents::new(alloc, log, pages),
            first: None,
            steps: List::new(alloc),
        }
    }

    /// What the machine holds and has put out by now.
    pub fn contents(&self) -> &Contents
        ensures { result.now ≡ self.now.contents }
    {
        &self.contents
    }

    /// How many steps were taken.
    pub fn len(&self) -> usize
        ensures { result ≡ length self.now.steps }
    {
        self.steps.len()
    }

    /// Takes the step of a call that changes nothing.
    pub fn pass(&mut self)
        ensures { TakesStep Step.Passed (run_of self.old) (run_of self.new) }
    {
        if self.steps.push(Step::Passed).is_err() {
            self.contents.stop_telling();
        }
    }

    /// Takes the step of a sync, which made durable what was written, or failed and changed nothing.
    pub fn sync(&mut self, durable: bool)
        ensures { TakesStep (if durable then Step.Synced else Step.Passed) (run_of self.old) (run_of self.new) }
    {
        let step = if durable { Step::Synced } else { Step::Passed };
        if self.steps.push(step).is_err() {
            self.contents.stop_telling();
        }
    }

    /// Writes the bytes, and takes the step of a write whose range goes on behind them for so many
    /// bytes.
    pub fn write(&mut self, area: Area, at: u64, bytes: &[u8], unwritten: usize)
        ensures { TakesStep (Step.Wrote area at bytes.now unwritten) (run_of self.old) (run_of self.new) }
    {
        let kept = keep_first(self.alloc, &mut self.first, self.contents.image());
        let noted = note(
            &mut self.steps,
            Step::wrote(self.alloc, area, at, bytes, unwritten),
        );
        self.contents.write(area, at, bytes);
        if kept.is_err() || noted.is_err() {
            self.contents.stop_telling();
        }
    }

    /// Puts the bytes out, and takes the step of that.
    pub fn emit(&mut self, bytes: &[u8])
        ensures { TakesStep (Step.Emitted bytes.now) (run_of self.old) (run_of self.new) }
    {
        let noted = note(&mut self.steps, Step::emitted(self.alloc, bytes));
        self.contents.emit(bytes);
        if noted.is_err() {
            self.contents.stop_telling();
        }
    }

    /// What a stop within a call leaves, the first call being 1.
    pub fn stopped_in(&self, call: usize, fill: Fill) -> Result<Stopped, AllocError>
        requires from { 1 ≤ call }
        requires to { call ≤ length self.now.steps }
        ensures { IfOk result (IsStopIn fill (run_of self.now).first self.now.steps call) }
    {
        let first = match &self.first {
            Some(image) => image,
            None => self.contents.image(),
        };
        stop_in(self.alloc, first, self.steps.as_slice(), call, fill)
    }
}

/// Keeps a copy of the image, where none is kept yet. `AllocError` is want of memory.
fn keep_first(alloc: Global, first: &mut Option<Image>, image: &Image) -> Result<(), AllocError>
    ensures kept { OnOk result (is_some first.new ≡ true) }
    ensures alike { OnOk result (first_disk first.new image.now ≡ first_disk first.old image.now) }
    ensures err { OnErr result (first.new ≡ first.old) }
{
    if first.is_none() {
        *first = Some(image.copy(alloc)?);
    }
    Ok(())
}

/// Adds a step to the record. `AllocError` is want of memory, for the step or for the record.
fn note(steps: &mut List<Step>, step: Result<Step, AllocError>) -> Result<(), AllocError>
    ensures ok { OnOk result (IsOkAnd step (λ taken. steps.new ≡ steps.old ++ taken ∷ [])) }
    ensures err { OnErr result (steps.new ≡ steps.old) }
{
    steps.push(step?)
}
