ghost use Rattle.std.specs.Prelude.{◌≡◌, ◌⊎◌, ℕ, ◌<◌, ◌≤◌, ◌^◌, ◌↔◌, List, IsTrue, IsErr, IfOk, OnOk, IsErrOf, length};
ghost use Rattle.mt_machine.specs.Meaning.{Disk};
ghost use Rattle.mt_machine.specs.Calls.{HasCause};
ghost use Rattle.mt_machine.specs.Leaves.{Leaves, Looks};
ghost use Rattle.mt_machine.specs.declared.machine.Area.TheVariants.{Log, Pages};
ghost use Rattle.mt_journal.specs.Chain.{IsDamaged};
ghost use Rattle.mt_journal.specs.Replay.{Replays, with_ranges};
ghost use Rattle.mt_journal.specs.Commits.{DiskCause, KeepsReplay, StandsFor, ReplaysTo, ReplaysToEither, Committed, Emptied, Recovered, OldOrReplays, payload_size};

use crate::Body;
use crate::group::OPEN;
use crate::recovery::{chain_end, replay};
use crate::writing::{close_first, place, set_gate, write_behind};
use mt_machine::{Failed, Machine};
use std::marker::Model;
use thiserror::Error;

/// A log that is longer is emptied before the next commit.
const RESET_SIZE: u64 = 1 << 20;

/// Why a log was not recovered.
#[derive(Clone, Copy, Debug, PartialEq, Eq, Error)]
pub enum RecoverFault {
    /// A call on the disk failed.
    #[error("disk fault")]
    Disk,
    /// The chain of open groups does not decode. Nothing was written, if the machine tells its
    /// content.
    #[error("damaged log")]
    Damaged,
}

/// The journal of a machine: where the next group goes. Contracts see it as that place in the log.
#[derive(Debug, Drop)]
pub struct Journal {
    tail: u64,
}

impl Model for Journal {
    ghost use Rattle.std.specs.Prelude.{ℕ};

    ghost Value = { ℕ };

    ghost view = { λ journal. journal.tail };
}

impl Journal {
    /// Syncs, looks through the whole chain of open groups, writes its ranges in place, and empties
    /// the log where it had a group. After `Damaged` nothing was written, if the machine tells its
    /// content; after `Disk` the disk replays to what it did. It takes no memory.
    pub fn recover<M: Machine>(m: &mut M) -> Result<Journal, RecoverFault>
        ensures ok { IfOk result (λ journal. (journal ≡ 0) × Recovered (M.meaning m.old) (M.meaning m.new)) }
        // At each moment the disk is one that a stop before the call could leave, or it replays to
        // what the disk replayed to that was read at first.
        ensures any_moment { Leaves (OldOrReplays (M.meaning m.old)) (M.meaning m.old) (M.meaning m.new) }
        // whatever it answers
        ensures content { IsTrue (M.meaning m.new).tells → KeepsReplay (M.meaning m.old).content (M.meaning m.new).content }
        ensures damaged { IsErrOf result RecoverFault.Damaged → Looks (M.meaning m.old) (M.meaning m.new)
            × (IsTrue (M.meaning m.new).tells → IsDamaged ((M.meaning m.old).content Log)) }
        ensures cause { DiskCause result (M.meaning m.old).disk_faults (M.meaning m.new).disk_faults }
        ensures beneath { M.beneath m.old m.new }
    {
        m.sync()?;
        let end = chain_end(m)?;
        if end == 0 {
            return Ok(Journal { tail: 0 });
        }
        replay(m, end)?;
        close_first(m)?;
        Ok(Journal { tail: 0 })
    }

    /// Where the next group goes in the log.
    pub fn tail(&self) -> u64
        ensures { result ≡ self.now }
    {
        self.tail
    }

    /// Whether the log is so long that it is to be emptied before the next commit.
    pub fn needs_reset(&self) -> bool
        ensures { IsTrue result ↔ (1048576 < self.now) }
    {
        self.tail > RESET_SIZE
    }

    /// Commits the ranges as one group: at Ok they stand in the pages, and each stop from then on
    /// leaves them there. After `Failed` the journal is not used again; the group is whole or absent.
    /// It takes no memory.
    pub fn commit<M: Machine>(&mut self, m: &mut M, body: &Body) -> Result<(), Failed>
        requires stands { StandsFor self.old (M.meaning m.old) }
        requires short { self.old ≤ 1048576 }
        requires size { payload_size body.now ≤ 2 ^ 41 }
        ensures ok { OnOk result (Committed body.now self.old self.new (M.meaning m.old) (M.meaning m.new)) }
        ensures any_moment { Leaves (ReplaysToEither ((M.meaning m.old).content Pages) (with_ranges body.now ((M.meaning m.old).content Pages))) (M.meaning m.old) (M.meaning m.new) }
        ensures cause { HasCause (M.meaning m.old).disk_faults (M.meaning m.new).disk_faults result }
        ensures beneath { M.beneath m.old m.new }
    {
        let payload = body.payload();
        let tail = self.tail + 9 + payload.len() as u64;
        write_behind(m, self.tail, payload)?;
        set_gate(m, self.tail, OPEN)?;
        place(m, body)?;
        self.tail = tail;
        Ok(())
    }

    /// Empties the log. No stop changes what the disk replays to. It takes no memory. After `Failed`
    /// the journal is not used again.
    pub fn reset<M: Machine>(&mut self, m: &mut M) -> Result<(), Failed>
        requires { StandsFor self.old (M.meaning m.old) }
        ensures ok { OnOk result ((self.new ≡ 0) × Emptied (M.meaning m.old) (M.meaning m.new)) }
        ensures any_moment { Leaves (ReplaysTo ((M.meaning m.old).content Pages)) (M.meaning m.old) (M.meaning m.new) }
        ensures cause { HasCause (M.meaning m.old).disk_faults (M.meaning m.new).disk_faults result }
        ensures beneath { M.beneath m.old m.new }
    {
        // With no group in the log its first gate is not written: a stop could leave it open.
        if self.tail == 0 {
            m.sync()?;
            return Ok(());
        }
        close_first(m)?;
        self.tail = 0;
        Ok(())
    }
}

impl From<Failed> for RecoverFault {
    ghost use Rattle.std.specs.Prelude.{◌≡◌};
    ghost use Rattle.mt_journal.specs.declared.journal.RecoverFault.TheVariants as faults;

    ghost from_gives = { λ _ fault. fault ≡ faults.Disk };

    fn from(_: Failed) -> RecoverFault {
        RecoverFault::Disk
    }
}
