ghost use Rattle.std.specs.Prelude.{◌≡◌, IfOk};

use crate::{Area, Bytes};
use mt_list::List;
use std::alloc::{AllocError, Global};

/// What one call on a machine in memory did.
#[derive(Debug, Drop)]
pub enum Step {
    /// These bytes were written to an area from a position on. The range goes on behind them for so
    /// many bytes that a write which failed left as they were.
    Wrote(Area, u64, Bytes, usize),
    /// What was written before was made durable.
    Synced,
    /// A read, or a sync that failed.
    Passed,
    /// These bytes were put out.
    Emitted(Bytes),
}

impl Step {
    /// The step of a write. `AllocError` is want of memory.
    pub fn wrote(
        alloc: Global,
        area: Area,
        at: u64,
        bytes: &[u8],
        unwritten: usize,
    ) -> Result<Step, AllocError>
        ensures { IfOk result (λ step. step ≡ Step.Wrote area at bytes.now unwritten) }
    {
        let bytes = List::from_vec(Vec::from_slice(alloc, bytes)?);
        Ok(Step::Wrote(area, at, bytes, unwritten))
    }

    /// The step of an emit. `AllocError` is want of memory.
    pub fn emitted(alloc: Global, bytes: &[u8]) -> Result<Step, AllocError>
        ensures { IfOk result (λ step. step ≡ Step.Emitted bytes.now) }
    {
        let bytes = List::from_vec(Vec::from_slice(alloc, bytes)?);
        Ok(Step::Emitted(bytes))
    }
}
