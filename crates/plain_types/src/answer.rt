// What a line or a request is answered.
use snap_ids::{Bytes, CloneList, Entries, Ino, SnapContext, SnapId};

/// Why something is refused, in the words of the replies.
#[derive(Clone, Copy, Debug, PartialEq, Eq, Hash)]
pub enum Refusal {
    /// `bad-name`: something new can't have this name.
    BadName,
    /// `exists`: the name is taken.
    Exists,
    /// `no-entry`: nothing has the name.
    NoEntry,
    /// `not-dir`: a file stands where a directory is needed.
    NotDir,
    /// `is-dir`: a directory stands where a file is needed.
    IsDir,
    /// `not-empty`: the directory has entries.
    NotEmpty,
    /// `has-snapshots`: a directory that roots live snapshots can't be removed. Ceph developer guide, CephFS Snapshots.
    HasSnapshots,
    /// `read-only`: what stands under `.snap` can't be changed, nor a file through a handle that only reads.
    ReadOnly,
    /// `no-snap`: no snapshot of the directory has the name.
    NoSnap,
    /// `bad-handle`: the handle is in use, or isn't.
    BadHandle,
    /// `into-itself`: a directory can't be moved below itself.
    IntoItself,
    /// `too-large`: a file has at most 65,536 bytes.
    TooLarge,
    /// `too-many-snaps`: a directory has at most 100 live snapshots.
    TooManySnaps,
    /// `too-many-live`: there are at most 128 live snapshots.
    TooManyLive,
}

/// What a line or a request is answered.
#[derive(Clone, Debug, PartialEq, Eq, Drop)]
pub enum Answer {
    /// It was done.
    Done,
    /// A snapshot was made, with this id.
    Snap(SnapId),
    /// The file was opened: its inode.
    Opened(Ino),
    /// Nothing was done, for this reason.
    Refused(Refusal),
    /// This client still owes the file's flush for the snapshot.
    Pending(u8),
    /// The snapshot was removed before its bytes were read.
    Gone,
    /// A file's bytes.
    FileBytes(Bytes),
    /// A file's mode and its size in bytes.
    StatFile(u16, u32),
    /// A directory's mode.
    StatDir(u16),
    /// What a directory lists, by the bytes of the names.
    Listed(Entries),
    /// The realm that contains an inode, by the inode that it begins at, and the inode's context.
    RealmIs(Ino, SnapContext),
    /// A live file was found: the store has its bytes. The server's answer on the way to a client's.
    FoundLive {
        ino: Ino,
        /// The file's mode.
        perm: u16,
        /// Its size in bytes as the server knows it.
        size: u32,
        /// Whether the client that asks holds it for writing.
        write_held: bool,
    },
    /// A file was found in a snapshot: the store has its bytes. The server's answer on the way to a client's.
    FoundSnap {
        ino: Ino,
        snap: SnapId,
        size: u32,
    },
    /// A file was found whose object is asked for. The server's answer on the way to a client's.
    FoundObject {
        ino: Ino,
        index: u32,
    },
    /// The clones of an object.
    ClonesAre(CloneList),
}
