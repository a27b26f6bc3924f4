// What is known of each file.
ghost use Rattle.std.specs.Prelude.{◌≡◌};
ghost use Rattle.std.specs.Map.{lookup, set_value};
ghost use Rattle.std.specs.Ordering.{nat_cmp};
ghost use Rattle.std.specs.BTreeMap.{is_at, IsOrdered};

use snap_ids::Ino;
use std::collections::BTreeMap;

/// What is known of a file.
#[derive(Clone, Copy, Debug, PartialEq, Eq)]
pub struct FileUse {
    /// How many names it has.
    pub names: u64,
    /// Whether the store has dropped it.
    pub dropped: bool,
}

// What is known of a file; None where it isn't there.
pub(crate) fn use_of(files: &BTreeMap<u64, FileUse>, ino: Ino) -> Option<FileUse>
    ensures { result ≡ lookup (is_at (nat_cmp ino.0)) files.now.entries }
{
    files.get(&ino.0).copied()
}

// Puts something else in place of what is known of a file.
pub(crate) fn set(files: &mut BTreeMap<u64, FileUse>, ino: Ino, file: FileUse)
    ensures entries { files.new.entries ≡ set_value (is_at (nat_cmp ino.0)) files.old.entries file }
    ensures ordered { IsOrdered nat_cmp files.old }
{
    if let Some(place) = files.get_mut(&ino.0) {
        *place = file;
    }
}
