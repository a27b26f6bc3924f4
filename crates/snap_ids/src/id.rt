// Ids of snapshots and inodes, and the ids for which a version is valid.
ghost use Rattle.std.specs.Prelude.{◌≤◌, ◌↔◌, IsTrue};

/// The id of a snapshot. Ids rise in the order in which snapshots are made, from `FIRST_SNAP` on.
#[derive(Clone, Copy, Debug, PartialEq, Eq, PartialOrd, Ord, Hash)]
pub struct SnapId(pub u64);

/// The number of an inode.
#[derive(Clone, Copy, Debug, PartialEq, Eq, PartialOrd, Ord, Hash)]
pub struct Ino(pub u64);

/// The last id of what is live. Ceph developer guide, CephFS Snapshots, "Dentries and inodes".
pub const NOSNAP: SnapId = SnapId(18446744073709551614);

/// The id of the first snapshot.
pub const FIRST_SNAP: SnapId = SnapId(2);

/// The root directory.
pub const ROOT: Ino = Ino(1);

/// The root of the stray directory, which holds files that lost their last name.
pub const STRAY: Ino = Ino(2);

/// The global realm, which holds files that ever had several names.
pub const GLOBAL: Ino = Ino(3);

/// The first inode that is made.
pub const FIRST_INO: Ino = Ino(1099511627776);

/// The ids for which a version is valid, both ends included.
#[derive(Clone, Copy, Debug, PartialEq, Eq, Hash)]
pub struct Interval {
    pub first: SnapId,
    pub last: SnapId,
}

impl Interval {
    /// Whether the version is valid at an id.
    pub fn holds(&self, s: SnapId) -> bool
        ensures { IsTrue result ↔ ((self.now.first.0 ≤ s.0) × (s.0 ≤ self.now.last.0)) }
    {
        self.first <= s && s <= self.last
    }
}
