// Why a file isn't read at a snapshot.
ghost use Rattle.std.specs.Prelude.{◌≡◌};
ghost use Rattle.object_clones.specs.declared.error.StoreError.TheVariants as store;

use snap_ids::NoMemory;
use thiserror::Error;

/// Why the bytes at a snapshot aren't given.
#[derive(Clone, Copy, Debug, PartialEq, Eq, Error)]
pub enum StoreError {
    /// The snapshot was purged.
    #[error("the snapshot was purged")]
    Gone,
    #[error("out of memory")]
    NoMemory,
}

impl From<NoMemory> for StoreError {
    ghost from_gives = { λ _ e. e ≡ store.NoMemory };

    fn from(_: NoMemory) -> Self {
        StoreError::NoMemory
    }
}
