// What clients ask the server.
ghost use Rattle.std.specs.Prelude.{◌≡◌};

use snap_ids::{Ino, Mode, Path};
use std::alloc::AllocError;

/// What a client asks the server. A path with `.snap` in it leads to a directory's snapshots or into one.
#[derive(Debug, PartialEq, Eq, Drop)]
pub enum Request {
    /// A new directory, or a new snapshot.
    Mkdir {
        path: Path,
    },
    /// To remove an empty directory, or a snapshot.
    Rmdir {
        path: Path,
    },
    /// A new file.
    Create {
        path: Path,
        mode: u16,
    },
    /// To remove a name of a file.
    Unlink {
        path: Path,
    },
    /// A further name, `target`, of the file at `path`.
    Link {
        path: Path,
        target: Path,
    },
    /// To move `path` to `target`.
    Rename {
        path: Path,
        target: Path,
    },
    /// Another mode.
    Chmod {
        path: Path,
        mode: u16,
    },
    /// To open a file under a number of the client's own.
    Open {
        handle: u8,
        path: Path,
        writable: bool,
    },
    /// To close a handle.
    Close {
        handle: u8,
    },
    /// A file's bytes.
    Cat {
        path: Path,
    },
    /// What an inode is, its mode, and a file's size.
    Stat {
        path: Path,
    },
    /// What a directory lists.
    List {
        path: Path,
    },
    /// The containing realm and the context of an inode.
    Realm {
        path: Path,
    },
    /// The clones of a file's object.
    Clones {
        path: Path,
        index: u32,
    },
    /// A capability on a file.
    Cap {
        ino: Ino,
        mode: Mode,
    },
    /// To be answered when all clients ask this with the same number.
    Barrier {
        number: u64,
    },
}

// Written out, so that a clone is the same request, in one fact.
impl Clone for Request {
    ghost is_clone = { λ request clone. clone ≡ request };

    fn clone(&self) -> Result<Self, AllocError> {
        match self {
            Request::Mkdir { path } => Ok(Request::Mkdir {
                path: path.clone()?,
            }),
            Request::Rmdir { path } => Ok(Request::Rmdir {
                path: path.clone()?,
            }),
            Request::Create { path, mode } => Ok(Request::Create {
                path: path.clone()?,
                mode: *mode,
            }),
            Request::Unlink { path } => Ok(Request::Unlink {
                path: path.clone()?,
            }),
            Request::Link { path, target } => Ok(Request::Link {
                path: path.clone()?,
                target: target.clone()?,
            }),
            Request::Rename { path, target } => Ok(Request::Rename {
                path: path.clone()?,
                target: target.clone()?,
            }),
            Request::Chmod { path, mode } => Ok(Request::Chmod {
                path: path.clone()?,
                mode: *mode,
            }),
            Request::Open {
                handle,
                path,
                writable,
            } => Ok(Request::Open {
                handle: *handle,
                path: path.clone()?,
                writable: *writable,
            }),
            Request::Close { handle } => Ok(Request::Close { handle: *handle }),
            Request::Cat { path } => Ok(Request::Cat {
                path: path.clone()?,
            }),
            Request::Stat { path } => Ok(Request::Stat {
                path: path.clone()?,
            }),
            Request::List { path } => Ok(Request::List {
                path: path.clone()?,
            }),
            Request::Realm { path } => Ok(Request::Realm {
                path: path.clone()?,
            }),
            Request::Clones { path, index } => Ok(Request::Clones {
                path: path.clone()?,
                index: *index,
            }),
            Request::Cap { ino, mode } => Ok(Request::Cap {
                ino: *ino,
                mode: *mode,
            }),
            Request::Barrier { number } => Ok(Request::Barrier { number: *number }),
        }
    }
}

/// A request that changes nothing.
#[derive(Clone, Debug, PartialEq, Eq, Drop)]
pub enum Query {
    List { path: Path },
    Stat { path: Path },
    Cat { path: Path },
    Realm { path: Path },
    Clones { path: Path, index: u32 },
}
