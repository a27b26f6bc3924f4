// What the server keeps of realms. Ceph developer guide, CephFS Snapshots.
use snap_ids::{Ids, Ino, Name, SnapId};

/// A realm that begins at an inode.
#[derive(Debug, Drop)]
pub struct Realm {
    /// The greatest id that the realm had, by its own snapshots or by those of the realms above it at an earlier time.
    pub seq: SnapId,
    /// The first id for which the realm above is its parent.
    pub since: SnapId,
    /// The ids that its earlier parents left it: Ceph's `past_parent_snaps`.
    pub past: Ids,
}

/// An inode.
#[derive(Debug, Drop)]
pub struct Node {
    /// The inode above it; the roots have none.
    pub parent: Option<Ino>,
    /// The first id for which it is valid.
    pub birth: SnapId,
    /// The realm that begins at it, if one does.
    pub realm: Option<Realm>,
}

/// A snapshot that the store still keeps.
#[derive(Debug, Drop)]
pub struct Snap {
    pub id: SnapId,
    /// The directory that it was made of.
    pub root: Ino,
    pub name: Name,
    /// Whether it still has its name.
    pub live: bool,
}
