//! The lock of a directory.

use std::fs::{File, TryLockError};
use std::io;

/// A file that can be locked, so that only one process uses a directory.
pub trait TryLock {
    /// Takes the lock, which is held as long as the file is open, and returns whether no other
    /// holds it. The system releases it when the process ends, however that happens.
    fn take_lock(&self) -> io::Result<bool>;
}

impl TryLock for File {
    fn take_lock(&self) -> io::Result<bool> {
        match self.try_lock() {
            Ok(()) => Ok(true),
            Err(TryLockError::WouldBlock) => Ok(false),
            Err(TryLockError::Error(error)) => Err(error),
        }
    }
}
