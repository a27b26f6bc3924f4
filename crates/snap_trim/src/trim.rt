// What is dropped, and in which order.
ghost use Rattle.std.specs.Prelude.{◌≡◌, ◌<◌, ◌≤◌, true, false, None, if◌then◌else◌, IfSome};
ghost use Rattle.snap_ids.specs.Context.{is_listed};
ghost use Rattle.snap_ids.specs.declared.id.Ino.{Ino};
ghost use Rattle.snap_ids.specs.declared.id.SnapId.{SnapId as Id};
ghost use Rattle.snap_ids.specs.declared.id.TheConstants.{NOSNAP};
ghost use Rattle.inode_versions.specs.Table.{attr_at, head_of, is_kept, since, trimmed_table};
ghost use Rattle.inode_versions.specs.Table.{count_unneeded as unneeded_inodes};
ghost use Rattle.dentry_tree.specs.Dentries.{entries_at, kind_of, newest};
ghost use Rattle.dentry_tree.specs.Places.{trimmed_all};
ghost use Rattle.dentry_tree.specs.Places.{count_unneeded as unneeded_entries};
ghost use Rattle.snap_table.specs.Rising.{rises};
ghost use Rattle.snap_trim.specs.Trim.{first_unsent, counted};

use dentry_tree::DirTree;
use inode_versions::InodeTable;
use snap_ids::{Ids, SnapId};
use snap_table::SnapTable;

// Whether a list has an id.
fn has(ids: &Ids, id: SnapId) -> bool
    ensures { result ≡ is_listed id ids.now }
{
    ids.as_slice().iter().any(|other| other.0 == id.0)
}

/// The removed snapshot that is to be purged next: the least that the store hasn't dropped and that isn't among those
/// already sent to it. None where there is none. It takes no memory.
pub fn next_trim(table: &SnapTable, sent: &Ids) -> Option<SnapId>
    ensures next { result ≡ first_unsent sent.now table.now.unpurged }
    ensures rising { rises table.now.unpurged ≡ true }
{
    table.unpurged().iter().copied().find(|id| !has(sent, *id))
}

/// Drops the earlier versions of inodes and entries that are valid at no id of a list, and answers how many: what is live
/// and what stood at each id of the list stays. It takes no memory.
pub fn trim_all(inodes: &mut InodeTable, dirs: &mut DirTree, live: &Ids) -> usize
    ensures inodes { inodes.new ≡ trimmed_table live.now inodes.old }
    ensures entries { dirs.new.dentries ≡ trimmed_all live.now dirs.old.dentries }
    ensures count { result ≡ counted (unneeded_inodes live.now inodes.old) (unneeded_entries live.now dirs.old.dentries) }
    ensures attributes { (i : Ino) → (s : Id) → is_listed s live.now ≡ true → attr_at inodes.new i s ≡ attr_at inodes.old i s }
    ensures heads { (i : Ino) → head_of inodes.new i ≡ head_of inodes.old i }
    ensures kept { (i : Ino) → (s : Id) → attr_at inodes.new i s ≡ (if is_kept live.now inodes.old i s then attr_at inodes.old i s else None) }
    ensures since { (i : Ino) → since inodes.new i ≡ since inodes.old i }
    ensures names { (s : Id) → is_listed s live.now ≡ true → entries_at s dirs.new ≡ entries_at s dirs.old }
    ensures live_names { entries_at NOSNAP dirs.new ≡ entries_at NOSNAP dirs.old }
    ensures kinds { (i : Ino) → kind_of dirs.new i ≡ kind_of dirs.old i }
    ensures changed { newest dirs.new ≤ newest dirs.old }
    ensures later_names { (s : Id) → newest dirs.old < s.0 → s.0 ≤ NOSNAP.0 → entries_at s dirs.new ≡ entries_at s dirs.old }
{
    let of_inodes = inodes.trim(live);
    let of_entries = dirs.trim(live);
    of_inodes.saturating_add(of_entries)
}
