// Why a tree of realms can't do what it is asked.
ghost use Rattle.std.specs.Prelude.{◌≡◌};
ghost use Rattle.snap_realm.specs.declared.error.RealmError.TheVariants.{NoMemory};

use std::alloc::{AllocError, AllocFailed};
use thiserror::Error;

/// Why a tree of realms can't do what it is asked.
#[derive(Clone, Copy, Debug, PartialEq, Eq, Error)]
pub enum RealmError {
    /// The directory has a snapshot of that name.
    #[error("the directory has a snapshot of that name")]
    SnapExists,
    /// No snapshot of the directory has the name.
    #[error("the directory has no snapshot of that name")]
    NoSnap,
    /// The directory has as many snapshots as one may have.
    #[error("the directory has too many snapshots")]
    TooManySnaps,
    /// There are as many snapshots as there may be.
    #[error("there are too many snapshots")]
    TooManyLive,
    /// There was no memory for it.
    #[error("out of memory")]
    NoMemory,
}

impl From<AllocError> for RealmError {
    ghost from_gives = { λ _ e. e ≡ NoMemory };

    fn from(_: AllocError) -> Self {
        RealmError::NoMemory
    }
}

impl<T: Drop> From<AllocFailed<T>> for RealmError {
    ghost from_gives = { λ _ e. e ≡ NoMemory };

    fn from(_: AllocFailed<T>) -> Self {
        RealmError::NoMemory
    }
}

impl From<snap_ids::NoMemory> for RealmError {
    ghost from_gives = { λ _ e. e ≡ NoMemory };

    fn from(_: snap_ids::NoMemory) -> Self {
        RealmError::NoMemory
    }
}
