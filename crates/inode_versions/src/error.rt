// Why a table of inodes can't do what it is asked.
ghost use Rattle.std.specs.Prelude.{◌≡◌};
ghost use Rattle.inode_versions.specs.declared.error.InodeError.TheVariants.{NoMemory};

use std::alloc::{AllocError, AllocFailed};
use thiserror::Error;

/// Why a table of inodes can't do what it is asked.
#[derive(Clone, Copy, Debug, PartialEq, Eq, Error)]
pub enum InodeError {
    /// There was no memory for it.
    #[error("out of memory")]
    NoMemory,
}

impl From<AllocError> for InodeError {
    ghost from_gives = { λ _ e. e ≡ NoMemory };

    fn from(_: AllocError) -> Self {
        InodeError::NoMemory
    }
}

impl<T: Drop> From<AllocFailed<T>> for InodeError {
    ghost from_gives = { λ _ e. e ≡ NoMemory };

    fn from(_: AllocFailed<T>) -> Self {
        InodeError::NoMemory
    }
}
