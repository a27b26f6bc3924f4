// What the table is asked to do, and why it refuses.
ghost use Rattle.std.specs.Prelude.{◌≡◌};
ghost use Rattle.snap_table.specs.Op.{id_of};
ghost use Rattle.snap_table.specs.declared.op.TableError.TheVariants.{NoMemory};

use snap_ids::SnapId;
use std::alloc::AllocError;
use thiserror::Error;

/// An operation on the table, with the id of its snapshot.
#[derive(Clone, Copy, Debug, PartialEq, Eq)]
pub enum TableOp {
    /// The snapshot comes to life.
    Create(SnapId),
    /// The snapshot lives no more, and is to be purged.
    Destroy(SnapId),
}

impl TableOp {
    // The id of the operation's snapshot.
    pub(crate) fn id(self) -> SnapId
        ensures { result ≡ id_of self }
    {
        match self {
            TableOp::Create(id) => id,
            TableOp::Destroy(id) => id,
        }
    }
}

/// Why an operation isn't prepared.
#[derive(Clone, Copy, Debug, PartialEq, Eq, Error)]
pub enum TableError {
    /// An operation on this snapshot is outstanding.
    #[error("an operation is outstanding")]
    Busy(SnapId),
    #[error("out of memory")]
    NoMemory,
}

impl From<AllocError> for TableError {
    ghost from_gives = { λ _ e. e ≡ NoMemory };

    fn from(_: AllocError) -> Self {
        TableError::NoMemory
    }
}
