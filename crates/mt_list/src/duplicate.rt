ghost use Rattle.std.specs.Prelude.{◌≡◌, IfOk};

use std::alloc::{AllocError, Global};

/// A value of which an equal one can be made.
pub trait Duplicate: Drop {
    /// An equal value. `AllocError` is want of memory.
    fn copy(&self, alloc: Global) -> Result<Self, AllocError>
    where
        Self: Sized,
        ensures { IfOk result (λ copied. copied ≡ self.now) };

    /// Equal values in the same order, as a type of plain numbers copies them at once.
    fn copy_all(alloc: Global, members: &[Self]) -> Result<Vec<Self>, AllocError>
    where
        Self: Sized,
        ensures { IfOk result (λ copied. copied.items ≡ members.now) }
    {
        let mut copied = Vec::with_capacity(alloc, members.len())?;
        for member in members {
            copied.push(member.copy(alloc)?)?;
        }
        Ok(copied)
    }
}

impl Duplicate for u8 {
    fn copy(&self, _alloc: Global) -> Result<u8, AllocError> {
        Ok(*self)
    }

    fn copy_all(alloc: Global, members: &[u8]) -> Result<Vec<u8>, AllocError> {
        Vec::from_slice(alloc, members)
    }
}
