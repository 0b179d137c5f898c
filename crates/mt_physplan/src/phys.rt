ghost use Rattle.std.specs.Prelude.{◌≡◌, IsErrOf};
ghost use Rattle.mt_machine.specs.Keeps.{MayFail};
ghost use Rattle.mt_physplan.specs.Phys.{PhysMeaning, Scans};

use crate::Scan;
use mt_machine::Failed;
use mt_rowfile::SlotRows;
use std::alloc::{AllocError, Global};
use thiserror::Error;

/// Why a scan gave nothing.
#[derive(Clone, Copy, Debug, PartialEq, Eq, Error)]
pub enum PhysFault {
    #[error("disk fault")]
    Disk,
    #[error("out of memory")]
    Memory,
}

impl From<AllocError> for PhysFault {
    ghost use Rattle.std.specs.Prelude.{◌≡◌};
    ghost use Rattle.mt_physplan.specs.declared.phys.PhysFault.TheVariants as faults;

    ghost from_gives = { λ _ fault. fault ≡ faults.Memory };

    fn from(_: AllocError) -> PhysFault {
        PhysFault::Memory
    }
}

impl From<Failed> for PhysFault {
    ghost use Rattle.std.specs.Prelude.{◌≡◌};
    ghost use Rattle.mt_physplan.specs.declared.phys.PhysFault.TheVariants as faults;

    ghost from_gives = { λ _ fault. fault ≡ faults.Disk };

    fn from(_: Failed) -> PhysFault {
        PhysFault::Disk
    }
}

/// Physical tables that can be scanned.
pub trait Phys {
    /// What the tables hold, where that is told, how often each was scanned, and the count of faults
    /// of the device.
    ghost meaning: { Self → PhysMeaning };

    /// Holds between the tables before some scans and the tables after them.
    ghost scanned: { Self → Self → Type 0 };

    /// The tables may be scanned.
    ghost ready: { Self → Type 0 };

    /// The slots that the scan asks for, in order of Row. `Disk` only where the count of faults rose
    /// or the content is not told, `Memory` for want of memory; after each the tables hold what they
    /// held, and the scan is counted.
    fn scan(&mut self, alloc: Global, scan: &Scan) -> Result<SlotRows, PhysFault>
        requires ready { ready self.old }
        ensures ready { ready self.new }
        ensures effect { Scans result scan.now (meaning self.old) (meaning self.new) }
        ensures disk { IsErrOf result PhysFault.Disk → MayFail (meaning self.new).tells (meaning self.old).faults (meaning self.new).faults }
        ensures kept { scanned self.old self.new };

    /// Tables are as they were before no scan.
    ghost scanned_itself: { (phys : Self) → scanned phys phys };

    /// What holds of each of two stretches of scans holds of both together.
    ghost scanned_both: { (first second third : Self) → scanned first second → scanned second third → scanned first third };
}
