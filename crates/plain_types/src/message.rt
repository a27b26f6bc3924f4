// What the nodes send one another.
ghost use Rattle.std.specs.Prelude.{◌≡◌};

use crate::answer::Answer;
use crate::request::Request;
use snap_ids::{Bytes, CloneList, Ino, ListOf, Mode, SnapContext, SnapId, Trace};
use std::alloc::AllocError;

/// Numbers of clients.
pub type Clients = ListOf<u8>;

/// Inodes.
pub type Inos = ListOf<Ino>;

/// Files that a client says that it holds.
pub type Claims = ListOf<Claim>;

/// Flushes that the server hasn't acknowledged, by rising number.
pub type Flushes = ListOf<FlushMsg>;

/// Files with the realms that contain them now.
pub type SnapUpdate = ListOf<FileTrace>;

/// For each client what it is to be told, by rising client.
pub type Notices = ListOf<(u8, SnapUpdate)>;

/// Files whose sequence id grew, each with the old one.
pub type Grown = ListOf<(Ino, SnapId)>;

/// When a message was made.
#[derive(Clone, Copy, Debug, PartialEq, Eq, Hash)]
pub struct Stamp {
    /// The id of the last snapshot that was made.
    pub snap: SnapId,
    /// How many entries the journal had.
    pub entry: u64,
}

/// A file, the first id for which it is valid, and the realms that contain it.
#[derive(Debug, PartialEq, Eq, Drop)]
pub struct FileTrace {
    pub ino: Ino,
    pub birth: SnapId,
    pub trace: Trace,
}

// Written out, so that a clone is the same value, in one fact.
impl Clone for FileTrace {
    ghost is_clone = { λ file clone. clone ≡ file };

    fn clone(&self) -> Result<Self, AllocError> {
        Ok(FileTrace {
            ino: self.ino,
            birth: self.birth,
            trace: self.trace.clone()?,
        })
    }
}

/// A file that a client says that it holds.
#[derive(Clone, Copy, Debug, PartialEq, Eq, Hash)]
pub struct Claim {
    pub ino: Ino,
    pub mode: Mode,
    /// Up to this id the client owes no flush of it.
    pub settled: SnapId,
}

/// A flush of a file: Ceph's FLUSHSNAP, or with `release` the last one of a writer.
#[derive(Clone, Copy, Debug, PartialEq, Eq, Hash)]
pub struct FlushMsg {
    /// The client's flushes are numbered from 1.
    pub number: u64,
    pub ino: Ino,
    /// It is for the ids above this one,
    pub follows: SnapId,
    /// and up to this one.
    pub upto: SnapId,
    /// The file's size in bytes there.
    pub size: u32,
    /// Whether the client holds the file no more.
    pub release: bool,
}

/// To the server: from a client, or the last two from the store.
#[derive(Debug, PartialEq, Eq, Drop)]
pub enum ToServer {
    /// The client begins a connection with this number, with what it holds, what isn't acknowledged, and its open
    /// request with its number.
    Connect {
        conn: u64,
        claims: Claims,
        flushes: Flushes,
        asked: Option<(u64, Request)>,
    },
    /// The client's request of this number.
    Ask {
        conn: u64,
        tid: u64,
        request: Request,
    },
    Flush {
        conn: u64,
        flush: FlushMsg,
    },
    /// The client reads the file no more.
    DropRead {
        conn: u64,
        ino: Ino,
    },
    /// The store has dropped a removed snapshot.
    Purged(SnapId),
    /// The store has dropped a file.
    Deleted(Ino),
}

// Written out, so that a clone is the same message, in one fact.
impl Clone for ToServer {
    ghost is_clone = { λ message clone. clone ≡ message };

    fn clone(&self) -> Result<Self, AllocError> {
        match self {
            ToServer::Connect {
                conn,
                claims,
                flushes,
                asked,
            } => Ok(ToServer::Connect {
                conn: *conn,
                claims: claims.clone()?,
                flushes: flushes.clone()?,
                asked: asked.clone()?,
            }),
            ToServer::Ask { conn, tid, request } => Ok(ToServer::Ask {
                conn: *conn,
                tid: *tid,
                request: request.clone()?,
            }),
            ToServer::Flush { conn, flush } => Ok(ToServer::Flush {
                conn: *conn,
                flush: *flush,
            }),
            ToServer::DropRead { conn, ino } => Ok(ToServer::DropRead {
                conn: *conn,
                ino: *ino,
            }),
            ToServer::Purged(value) => Ok(ToServer::Purged(*value)),
            ToServer::Deleted(value) => Ok(ToServer::Deleted(*value)),
        }
    }
}

/// From the server to a client.
#[derive(Debug, PartialEq, Eq, Drop)]
pub enum ToClient {
    /// The answer to the request of this number.
    Reply {
        conn: u64,
        tid: u64,
        stamp: Stamp,
        answer: Answer,
    },
    /// The capability that the request of this number asked for.
    Grant {
        conn: u64,
        tid: u64,
        stamp: Stamp,
        ino: Ino,
        mode: Mode,
        /// The file's size in bytes.
        size: u32,
        file: FileTrace,
    },
    /// The client is to let go of a file.
    Recall {
        conn: u64,
        stamp: Stamp,
        ino: Ino,
    },
    /// The realms of files that the client holds for writing have changed.
    Notice {
        conn: u64,
        stamp: Stamp,
        update: SnapUpdate,
    },
    /// The flush of this number is written down.
    FlushAck {
        conn: u64,
        stamp: Stamp,
        number: u64,
    },
    /// The connection stands. Flushes up to this number are written down.
    Welcome {
        conn: u64,
        stamp: Stamp,
        flushed: u64,
        update: SnapUpdate,
    },
    /// The server has begun anew, and knows of no connection.
    Restarted {
        stamp: Stamp,
    },
}

// Written out, so that a clone is the same message, in one fact.
impl Clone for ToClient {
    ghost is_clone = { λ message clone. clone ≡ message };

    fn clone(&self) -> Result<Self, AllocError> {
        match self {
            ToClient::Reply {
                conn,
                tid,
                stamp,
                answer,
            } => Ok(ToClient::Reply {
                conn: *conn,
                tid: *tid,
                stamp: *stamp,
                answer: answer.clone()?,
            }),
            ToClient::Grant {
                conn,
                tid,
                stamp,
                ino,
                mode,
                size,
                file,
            } => Ok(ToClient::Grant {
                conn: *conn,
                tid: *tid,
                stamp: *stamp,
                ino: *ino,
                mode: *mode,
                size: *size,
                file: file.clone()?,
            }),
            ToClient::Recall { conn, stamp, ino } => Ok(ToClient::Recall {
                conn: *conn,
                stamp: *stamp,
                ino: *ino,
            }),
            ToClient::Notice {
                conn,
                stamp,
                update,
            } => Ok(ToClient::Notice {
                conn: *conn,
                stamp: *stamp,
                update: update.clone()?,
            }),
            ToClient::FlushAck {
                conn,
                stamp,
                number,
            } => Ok(ToClient::FlushAck {
                conn: *conn,
                stamp: *stamp,
                number: *number,
            }),
            ToClient::Welcome {
                conn,
                stamp,
                flushed,
                update,
            } => Ok(ToClient::Welcome {
                conn: *conn,
                stamp: *stamp,
                flushed: *flushed,
                update: update.clone()?,
            }),
            ToClient::Restarted { stamp } => Ok(ToClient::Restarted { stamp: *stamp }),
        }
    }
}

/// To the object store: from a client, or deleting and purging from the server.
#[derive(Debug, PartialEq, Eq, Drop)]
pub enum ToStore {
    WriteAt {
        ino: Ino,
        offset: u32,
        bytes: Bytes,
        context: SnapContext,
    },
    /// The file is cut to so many bytes.
    Cut {
        ino: Ino,
        length: u32,
        context: SnapContext,
    },
    Delete {
        ino: Ino,
        context: SnapContext,
    },
    /// The file's first bytes, so many as `size` says. The answer has this key.
    ReadHead {
        key: u32,
        ino: Ino,
        size: u32,
    },
    /// The same as they were at a snapshot.
    ReadSnap {
        key: u32,
        ino: Ino,
        size: u32,
        snap: SnapId,
    },
    /// The clones of the file's object of this index.
    ListClones {
        key: u32,
        ino: Ino,
        index: u32,
    },
    /// To drop a removed snapshot from all objects.
    Purge(SnapId),
}

// Written out, so that a clone is the same message, in one fact.
impl Clone for ToStore {
    ghost is_clone = { λ message clone. clone ≡ message };

    fn clone(&self) -> Result<Self, AllocError> {
        match self {
            ToStore::WriteAt {
                ino,
                offset,
                bytes,
                context,
            } => Ok(ToStore::WriteAt {
                ino: *ino,
                offset: *offset,
                bytes: bytes.clone()?,
                context: context.clone()?,
            }),
            ToStore::Cut {
                ino,
                length,
                context,
            } => Ok(ToStore::Cut {
                ino: *ino,
                length: *length,
                context: context.clone()?,
            }),
            ToStore::Delete { ino, context } => Ok(ToStore::Delete {
                ino: *ino,
                context: context.clone()?,
            }),
            ToStore::ReadHead { key, ino, size } => Ok(ToStore::ReadHead {
                key: *key,
                ino: *ino,
                size: *size,
            }),
            ToStore::ReadSnap {
                key,
                ino,
                size,
                snap,
            } => Ok(ToStore::ReadSnap {
                key: *key,
                ino: *ino,
                size: *size,
                snap: *snap,
            }),
            ToStore::ListClones { key, ino, index } => Ok(ToStore::ListClones {
                key: *key,
                ino: *ino,
                index: *index,
            }),
            ToStore::Purge(value) => Ok(ToStore::Purge(*value)),
        }
    }
}

/// From the object store to a client.
#[derive(Debug, PartialEq, Eq, Drop)]
pub enum FromStore {
    /// The oldest write or cut of this file that wasn't answered is carried out.
    Stored { ino: Ino },
    Got { key: u32, bytes: Bytes },
    /// The snapshot is purged.
    NotThere { key: u32 },
    CloneListIs { key: u32, list: CloneList },
}

// Written out, so that a clone is the same message, in one fact.
impl Clone for FromStore {
    ghost is_clone = { λ message clone. clone ≡ message };

    fn clone(&self) -> Result<Self, AllocError> {
        match self {
            FromStore::Stored { ino } => Ok(FromStore::Stored { ino: *ino }),
            FromStore::Got { key, bytes } => Ok(FromStore::Got {
                key: *key,
                bytes: bytes.clone()?,
            }),
            FromStore::NotThere { key } => Ok(FromStore::NotThere { key: *key }),
            FromStore::CloneListIs { key, list } => Ok(FromStore::CloneListIs {
                key: *key,
                list: list.clone()?,
            }),
        }
    }
}

/// A message between nodes.
#[derive(Debug, PartialEq, Eq, Drop)]
pub enum Message {
    ToServer(ToServer),
    ToClient(ToClient),
    ToStore(ToStore),
    FromStore(FromStore),
}

// Written out, so that a clone is the same message, in one fact.
impl Clone for Message {
    ghost is_clone = { λ message clone. clone ≡ message };

    fn clone(&self) -> Result<Self, AllocError> {
        match self {
            Message::ToServer(message) => Ok(Message::ToServer(message.clone()?)),
            Message::ToClient(message) => Ok(Message::ToClient(message.clone()?)),
            Message::ToStore(message) => Ok(Message::ToStore(message.clone()?)),
            Message::FromStore(message) => Ok(Message::FromStore(message.clone()?)),
        }
    }
}
