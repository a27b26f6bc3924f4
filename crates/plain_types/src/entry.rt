// What the server writes down.
ghost use Rattle.std.specs.Prelude.{◌≡◌};

use snap_ids::{Ino, ListOf, Name, SnapId};
use std::alloc::AllocError;

/// What an entry of the journal says.
#[derive(Clone, Debug, PartialEq, Eq, Drop)]
pub enum What {
    Mkdir {
        dir: Ino,
        name: Name,
        ino: Ino,
    },
    Create {
        dir: Ino,
        name: Name,
        ino: Ino,
        mode: u16,
    },
    Link {
        ino: Ino,
        dir: Ino,
        name: Name,
    },
    Unlink {
        dir: Ino,
        name: Name,
    },
    Rmdir {
        dir: Ino,
        name: Name,
    },
    Rename {
        dir: Ino,
        name: Name,
        to_dir: Ino,
        to_name: Name,
    },
    Chmod {
        ino: Ino,
        mode: u16,
    },
    OpenFile {
        handle: u8,
        ino: Ino,
        writable: bool,
    },
    CloseFile {
        handle: u8,
    },
    /// The table is to make a snapshot with this id.
    PrepareCreate {
        id: SnapId,
    },
    Mksnap {
        id: SnapId,
        dir: Ino,
        name: Name,
    },
    /// The table is to remove this snapshot.
    PrepareDestroy {
        id: SnapId,
    },
    Rmsnap {
        id: SnapId,
    },
    /// What the table was to do is given up.
    Rollback {
        id: SnapId,
    },
    /// A writer's flush: this is the file's size at the ids above `follows` and up to `upto`.
    Settle {
        ino: Ino,
        follows: SnapId,
        upto: SnapId,
        size: u32,
    },
    /// A writer's last flush: this is the file's size at all ids above `follows`, and the writer holds it no more.
    Release {
        ino: Ino,
        follows: SnapId,
        size: u32,
    },
    /// What only this removed snapshot needs is dropped.
    Trim {
        id: SnapId,
    },
    /// The store has dropped this removed snapshot.
    Purgedone {
        id: SnapId,
    },
    /// The store has dropped a file that has neither name nor handle.
    Deadfile {
        ino: Ino,
    },
    /// All clients have come to the barrier of this number.
    Barrier {
        number: u64,
    },
}

/// An entry of the journal.
#[derive(Debug, PartialEq, Eq, Drop)]
pub struct Entry {
    /// Whose request or flush it is; 0 for the server's own.
    pub client: u8,
    /// The request's or the flush's number; 0 for the server's own.
    pub number: u64,
    pub what: What,
}

// Written out, so that a clone is the same value, in one fact.
impl Clone for Entry {
    ghost is_clone = { λ value clone. clone ≡ value };

    fn clone(&self) -> Result<Self, AllocError> {
        Ok(Entry {
            client: self.client,
            number: self.number,
            what: self.what.clone()?,
        })
    }
}

/// Entries of the journal, in their order.
pub type EntryList = ListOf<Entry>;
