ghost use Rattle.std.specs.Prelude.{◌≡◌, ◌+◌, ◌≤◌, ◌^◌, ℕ, List, IsTrue, length};
ghost use Rattle.mt_machine.specs.Meaning.{Disk, Meaning};
ghost use Rattle.mt_machine.specs.Calls.{Before, Reads, Writes, Syncs, Emits};

use thiserror::Error;

/// The two areas of a machine: the log of the journal, and the pages.
#[derive(Clone, Copy, Debug, PartialEq, Eq)]
pub enum Area {
    Log,
    Pages,
}

/// A call on the outside failed. What it may have done is in the contract of the call.
#[derive(Clone, Copy, Debug, PartialEq, Eq, Error)]
#[error("a call on the outside failed")]
pub struct Failed;

/// A disk of two areas, and an output.
///
/// Each area is a run of bytes that reads zero where nothing was written. After a call that fails
/// the machine may be used on; what it then holds is what the call's contract leaves.
pub trait Machine {
    /// What the machine holds and has put out, where it tells that, and its counts of faults.
    ghost meaning: { Self → Meaning };

    /// Holds between a machine before some calls and the machine after them.
    ghost beneath: { Self → Self → Type 0 };

    /// Fills `buf` with the bytes of `area` from `at` on. Nothing else changes.
    fn read(&mut self, area: Area, at: u64, buf: &mut [u8]) -> Result<(), Failed>
        requires { at + length buf.old ≤ 2 ^ 42 }
        ensures effect { Reads result area at buf.new (meaning self.old) (meaning self.new) }
        ensures kept { beneath self.old self.new };

    /// Writes the bytes to `area` from `at` on. After `Failed` that range may hold any bytes.
    fn write(&mut self, area: Area, at: u64, bytes: &[u8]) -> Result<(), Failed>
        requires { at + length bytes.now ≤ 2 ^ 42 }
        ensures effect { Writes result area at bytes.now (meaning self.old) (meaning self.new) }
        ensures kept { beneath self.old self.new };

    /// Makes durable what was written to both areas.
    fn sync(&mut self) -> Result<(), Failed>
        ensures effect { Syncs result (meaning self.old) (meaning self.new) }
        ensures kept { beneath self.old self.new };

    /// Puts the bytes out, behind what was put out before, and flushes them. After `Failed` a front
    /// of them was put out.
    fn emit(&mut self, bytes: &[u8]) -> Result<(), Failed>
        ensures effect { Emits result bytes.now (meaning self.old) (meaning self.new) }
        ensures kept { beneath self.old self.new };

    /// A machine is as it was before no call.
    ghost beneath_itself: { (machine : Self) → beneath machine machine };

    /// What holds of each of two stretches of calls holds of both together.
    ghost beneath_both: { (first second third : Self) → beneath first second → beneath second third → beneath first third };

    /// A machine that tells its moments tells its content.
    ghost moments_told: { (machine : Self) → IsTrue (meaning machine).tells_moments → IsTrue (meaning machine).tells };

    /// The disk as it reads is one of its images.
    ghost content_is_image: { (machine : Self) → IsTrue (meaning machine).tells_moments → (meaning machine).images (meaning machine).content };

    /// What a stop now may leave is what a stop since any earlier time may have left.
    ghost counts_now: { (machine : Self) (t : ℕ) (image : Disk) → IsTrue (meaning machine).tells_moments → t ≤ (meaning machine).clock
        → (meaning machine).images image → (meaning machine).since t image (meaning machine).output };

    /// Since now there is just now.
    ghost only_now: { (machine : Self) (image : Disk) (out : List ℕ) → IsTrue (meaning machine).tells_moments
        → (meaning machine).since (meaning machine).clock image out → Before (meaning machine) image out };
}
