// Changes of the tree, and when they took effect.
ghost use Rattle.std.specs.Prelude.{◌≡◌};

use snap_ids::{Bytes, Ino, ListOf, Name, SnapId};
use std::alloc::AllocError;

/// A change that succeeded. The last two are a client's own, the others the server's.
#[derive(Clone, Debug, PartialEq, Eq, Drop)]
pub enum Change {
    /// A directory gets a new directory under this name.
    Mkdir {
        dir: Ino,
        name: Name,
        ino: Ino,
    },
    /// A directory gets a new file under this name.
    Create {
        dir: Ino,
        name: Name,
        ino: Ino,
        mode: u16,
    },
    /// A file gets a further name.
    Link {
        ino: Ino,
        dir: Ino,
        name: Name,
    },
    /// A file loses this name.
    Unlink {
        dir: Ino,
        name: Name,
    },
    /// An empty directory loses its name.
    Rmdir {
        dir: Ino,
        name: Name,
    },
    /// What has this name gets another one in its place.
    Rename {
        dir: Ino,
        name: Name,
        to_dir: Ino,
        to_name: Name,
    },
    /// An inode gets another mode.
    Chmod {
        ino: Ino,
        mode: u16,
    },
    /// The client opens a file under this handle.
    OpenFile {
        handle: u8,
        ino: Ino,
        writable: bool,
    },
    /// The client closes a handle.
    CloseFile {
        handle: u8,
    },
    /// A snapshot with this id and name is made of all under a directory.
    Mksnap {
        id: SnapId,
        dir: Ino,
        name: Name,
    },
    /// A snapshot is removed.
    Rmsnap {
        id: SnapId,
    },
    /// The client writes bytes from an offset on.
    WriteFile {
        handle: u8,
        offset: u32,
        bytes: Bytes,
    },
    /// The client cuts or lengthens a file to so many bytes.
    Truncate {
        handle: u8,
        length: u32,
    },
}

/// A change that took effect.
#[derive(Debug, PartialEq, Eq, Drop)]
pub struct Effect {
    /// Whose change it is.
    pub client: u8,
    /// A server change's place in the journal, from 1; 0 for a client's own change.
    pub entry: u64,
    /// What changed.
    pub change: Change,
}

// Written out, so that a clone is the same value, in one fact.
impl Clone for Effect {
    ghost is_clone = { λ value clone. clone ≡ value };

    fn clone(&self) -> Result<Self, AllocError> {
        Ok(Effect {
            client: self.client,
            entry: self.entry,
            change: self.change.clone()?,
        })
    }
}

/// Changes that took effect, in their order.
pub type Effects = ListOf<Effect>;
