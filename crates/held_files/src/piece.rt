// A change of a file's bytes that is kept back.
use snap_ids::{Bytes, SnapContext};

/// A change of a file's bytes, with the context that the file had then.
#[derive(Debug, PartialEq, Eq, Drop)]
pub enum Piece {
    /// Bytes, laid from an offset on.
    Put {
        offset: u32,
        bytes: Bytes,
        context: SnapContext,
    },
    /// All from a length on is cut off, and what is missing up to it is zero.
    Cut {
        length: u32,
        context: SnapContext,
    },
}
