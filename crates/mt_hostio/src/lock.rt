use std::fs::{File, TryLockError};

/// A file that one open of it can have for itself.
pub trait Lock {
    /// Takes the lock of the whole file, which its close gives back. It does not wait: `WouldBlock` is
    /// a lock that another open of the file holds.
    fn try_lock(&self) -> Result<(), TryLockError>;
}

impl Lock for File {
    fn try_lock(&self) -> Result<(), TryLockError> {
        File::try_lock(self)
    }
}
