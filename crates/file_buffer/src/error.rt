// Why a change of a file is refused.
use thiserror::Error;

/// Why a file's bytes aren't changed.
#[derive(Clone, Copy, Debug, PartialEq, Eq, Error)]
pub enum BufError {
    /// The write or the new length ends behind byte 65,536.
    #[error("a file has at most 65,536 bytes")]
    TooLarge,
    #[error("out of memory")]
    NoMemory,
}
