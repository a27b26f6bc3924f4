// An inode that a name had, and when.
use snap_ids::{Ino, Interval};

/// An inode that a name had, and the ids for which it had it.
#[derive(Clone, Copy, Debug)]
pub struct Version {
    pub ino: Ino,
    pub valid: Interval,
}
