// The lists and the small values that several parts share.
use crate::id::{Ino, SnapId};
use crate::list::ListOf;
use crate::name::Name;

/// Bytes of a file.
pub type Bytes = ListOf<u8>;

/// Ids of snapshots.
pub type Ids = ListOf<SnapId>;

/// What a directory lists: names, each with what it names.
pub type Entries = ListOf<(Name, Kind)>;

/// The clones of an object: for each the id that it is named by, and the ids that it serves.
pub type Clones = ListOf<(SnapId, Ids)>;

/// The realms that contain an inode, the nearest first. Ceph developer guide, CephFS Snapshots.
pub type Trace = ListOf<RealmInfo>;

/// What an inode is.
#[derive(Clone, Copy, Debug, PartialEq, Eq, PartialOrd, Ord, Hash)]
pub enum Kind {
    Dir,
    File,
}

/// What a capability allows. Ceph's capabilities are finer; these two decide who may buffer.
#[derive(Clone, Copy, Debug, PartialEq, Eq, PartialOrd, Ord, Hash)]
pub enum Mode {
    /// To read a file and keep what was read.
    Read,
    /// To change a file and keep the changes back. No other client holds the file then.
    Write,
}

/// What an object has: its clones, and how long its head is, where it has one.
#[derive(Clone, Debug, PartialEq, Eq, Drop)]
pub struct CloneList {
    pub clones: Clones,
    pub head: Option<u32>,
}

/// One realm of a trace. Ceph developer guide, CephFS Snapshots.
#[derive(Clone, Debug, PartialEq, Eq, Drop)]
pub struct RealmInfo {
    /// The inode that the realm begins at.
    pub ino: Ino,
    /// The id of the realm's last snapshot.
    pub seq: SnapId,
    /// The first id for which the realm above is its parent.
    pub since: SnapId,
    /// The realm's own snapshots, falling.
    pub own: Ids,
    /// Those that its earlier parents left it, falling: Ceph's `past_parent_snaps`.
    pub past: Ids,
}
