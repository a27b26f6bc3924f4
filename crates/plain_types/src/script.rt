// What is to be run.
use crate::history::Step;
use snap_ids::{Bytes, ListOf, Path};

/// What one line of a client asks.
#[derive(Clone, Debug, PartialEq, Eq, Drop)]
pub enum Line {
    /// A new directory, or a new snapshot where the path ends in `.snap` and a name.
    Mkdir {
        path: Path,
    },
    /// To remove an empty directory, or a snapshot.
    Rmdir {
        path: Path,
    },
    /// A new file.
    Create {
        path: Path,
        mode: u16,
    },
    /// To remove a name of a file.
    Unlink {
        path: Path,
    },
    /// A further name, `target`, of the file at `path`.
    Link {
        path: Path,
        target: Path,
    },
    /// To move `path` to `target`.
    Rename {
        path: Path,
        target: Path,
    },
    /// Another mode.
    Chmod {
        path: Path,
        mode: u16,
    },
    /// To open a file, to read it or to change it too.
    Open {
        handle: u8,
        path: Path,
        writable: bool,
    },
    /// To close a handle.
    Close {
        handle: u8,
    },
    /// To write bytes from an offset on.
    Write {
        handle: u8,
        offset: u32,
        bytes: Bytes,
    },
    /// To cut or lengthen a file to so many bytes.
    Truncate {
        handle: u8,
        length: u32,
    },
    /// The bytes of an open file.
    Read {
        handle: u8,
    },
    /// The bytes of a file, now or in a snapshot.
    Cat {
        path: Path,
    },
    /// What an inode is, its mode, and a file's size, now or in a snapshot.
    Stat {
        path: Path,
    },
    /// What a directory lists, now or in a snapshot.
    List {
        path: Path,
    },
    /// The containing realm and the context of an inode.
    Realm {
        path: Path,
    },
    /// The clones of a file's object.
    Clones {
        path: Path,
        index: u32,
    },
    /// To wait for all clients.
    Barrier,
    /// The link to the server breaks, and is made anew.
    Break,
}

/// The lines of all clients in the order of the input, each with its client.
pub type Lines = ListOf<(u8, Line)>;

/// When the server is to restart: after how many buffered entries, and how many of those buffered then survive.
pub type Restarts = ListOf<(u64, u32)>;

/// What one line of a schedule says.
#[derive(Clone, Copy, Debug, PartialEq, Eq, Hash)]
pub enum Planned {
    /// This step is made.
    Make(Step),
    /// Steps other than `op` are made until none is left.
    Drain,
    /// Steps are made until none is left.
    All,
    /// So many times the client goes on, and then all others follow.
    Ops { client: u8, times: u32 },
}

/// What a schedule says, each with the number of its line of the input.
pub type Schedule = ListOf<(u32, Planned)>;

/// What an input spells.
#[derive(Clone, Debug, PartialEq, Eq, Drop)]
pub struct Script {
    /// How many clients there are.
    pub clients: u8,
    /// The size of an object in bytes, where the script says it.
    pub object: Option<u32>,
    pub restarts: Restarts,
    pub lines: Lines,
    pub schedule: Schedule,
    /// How many lines the input has.
    pub input_lines: u32,
}
