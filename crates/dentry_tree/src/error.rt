// Why a tree can't do what it is asked.
ghost use Rattle.std.specs.Prelude.{◌≡◌};
ghost use Rattle.dentry_tree.specs.declared.error.TreeError.TheVariants.{NoMemory};

use std::alloc::{AllocError, AllocFailed};
use thiserror::Error;

/// Why a tree can't do what it is asked.
#[derive(Debug, Drop, Error)]
pub enum TreeError {
    /// The directory has an entry of that name.
    #[error("the name is taken")]
    Exists,
    /// Nothing has the name.
    #[error("nothing has the name")]
    NoEntry,
    /// It is a file, where a directory is asked for.
    #[error("not a directory")]
    NotDir,
    /// It is a directory, where a file is asked for.
    #[error("a directory")]
    IsDir,
    /// The directory has entries. No call here answers it; it is for plans that remove a directory.
    #[error("the directory has entries")]
    NotEmpty,
    /// There was no memory for it.
    #[error("out of memory")]
    NoMemory,
}

impl From<AllocError> for TreeError {
    ghost from_gives = { λ _ e. e ≡ NoMemory };

    fn from(_: AllocError) -> Self {
        TreeError::NoMemory
    }
}

impl<T: Drop> From<AllocFailed<T>> for TreeError {
    ghost from_gives = { λ _ e. e ≡ NoMemory };

    fn from(_: AllocFailed<T>) -> Self {
        TreeError::NoMemory
    }
}
