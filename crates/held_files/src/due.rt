// What a client has to send.
use snap_ids::{Ino, SnapId};

/// What is to be sent for a file.
#[derive(Clone, Copy, Debug, PartialEq, Eq)]
pub enum Due {
    /// To the store: the file's oldest piece that isn't sent.
    Piece(Ino),
    /// To the server: the size that the file had when its context grew from `follows` to `upto`. Ceph's FLUSHSNAP.
    Mark {
        ino: Ino,
        follows: SnapId,
        upto: SnapId,
        size: u32,
    },
    /// To the server: a writer gives its recalled file back, with its size.
    Release {
        ino: Ino,
        size: u32,
    },
    /// To the server: a reader gives its recalled file back.
    DropRead(Ino),
}
