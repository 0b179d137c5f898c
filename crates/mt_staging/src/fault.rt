use std::alloc::AllocError;
use thiserror::Error;

/// Why a group was not chosen.
#[derive(Clone, Copy, Debug, PartialEq, Eq, Error)]
pub enum StageFault {
    /// The disk is not what it was: a slot that a change names is not there, or the pages would be too many.
    #[error("disk fault")]
    Disk,
    #[error("out of memory")]
    Memory,
}

impl From<AllocError> for StageFault {
    ghost use Rattle.std.specs.Prelude.{◌≡◌};
    ghost use Rattle.mt_staging.specs.declared.fault.StageFault.TheVariants as faults;

    ghost from_gives = { λ _ fault. fault ≡ faults.Memory };

    fn from(_: AllocError) -> StageFault {
        StageFault::Memory
    }
}
