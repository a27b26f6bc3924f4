// Why a call of a journal was refused.
ghost use Rattle.std.specs.Prelude.{◌≡◌};
ghost use Rattle.mds_journal.specs.Faults.{fault_of};

use io_edge::DiskError;
use thiserror::Error;

/// Why a call of a journal was refused.
#[derive(Clone, Copy, Debug, PartialEq, Eq, Error)]
pub enum JournalFault {
    /// The disk failed in this call.
    #[error("the disk failed")]
    DiskFault,
    /// What the disk holds is no journal.
    #[error("not a journal")]
    NotJournal,
    #[error("out of memory")]
    NoMemory,
}

// What a disk's error is for a journal.
pub(crate) fn fault_of(error: DiskError) -> JournalFault
    ensures { result ≡ fault_of error }
{
    match error {
        DiskError::Failed => JournalFault::DiskFault,
        DiskError::NoMemory => JournalFault::NoMemory,
    }
}

/// A journal that was not made: why, and the disk.
#[derive(Debug, Drop)]
pub struct JournalError<D> {
    pub cause: JournalFault,
    pub disk: D,
}
