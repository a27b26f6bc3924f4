// What an inode is, and the ids for which a version of that is valid.
ghost use Rattle.std.specs.Prelude.{◌≡◌};
ghost use Rattle.inode_versions.specs.Histories.{with_size};

use snap_ids::{Interval, Kind};

/// What an inode is: a directory or a file, its permission bits, and how many bytes it has.
#[derive(Clone, Copy, Debug, PartialEq, Eq, Hash)]
pub struct Attr {
    pub kind: Kind,
    /// The permission bits, as `chmod` takes them.
    pub mode: u16,
    /// How many bytes a file has.
    pub size: u32,
}

/// What an inode was, and the ids for which it was that.
#[derive(Clone, Copy, Debug)]
pub struct Version {
    pub valid: Interval,
    pub attr: Attr,
}

// The same attribute with another size.
pub(crate) fn with_size(size: u32, attr: Attr) -> Attr
    ensures { result ≡ with_size size attr }
{
    Attr { size, ..attr }
}
