// What a path leads to, live and under `.snap`.
ghost use Rattle.std.specs.Prelude.{◌≡◌, List, Option, Some, Result, Err};
ghost use Rattle.snap_ids.specs.declared.id.Ino.{Ino as Inode};
ghost use Rattle.plain_types.specs.declared.answer.Refusal.{Refusal as Reason};
ghost use Rattle.plain_types.specs.declared.entry.Entry.{Entry};
ghost use Rattle.plain_tree.specs.Query.{id_named};
ghost use Rattle.plain_tree.specs.Request.{tree_of, walk_live};
ghost use Rattle.plain_tree.specs.Walk.{walk};
ghost use Rattle.plain_journal.specs.Answers.{found};
ghost use Rattle.plain_journal.specs.Entries.{state_after};
ghost use Rattle.plain_journal.specs.Realms.{shown};
ghost use Rattle.dentry_tree.specs.Answers.{IsRefusal};
ghost use Rattle.dentry_tree.specs.Dentries.{entries_at, kind_of};
ghost use Rattle.inode_versions.specs.declared.attr.Attr.{Attr as Shape};
ghost use Rattle.inode_versions.specs.Table.{attr_at, head_of};
ghost use Rattle.meta_state.specs.Queries.{HasDirectory, IsFoundBelow, IsReached, directory_at, found_below};
ghost use Rattle.meta_state.specs.Stands.{IsState, StandsFor};

use crate::state::MetaState;
use dentry_tree::TreeError;
use inode_versions::Attr;
use plain_types::Refusal;
use snap_ids::{Ino, Kind, NOSNAP, Name, Path, ROOT, SnapId, Target};

/// What a path under `.snap` leads to: the inode, the snapshot's id, and what the inode is there, a file's size as flushes
/// settled it.
#[derive(Clone, Copy, Debug, PartialEq, Eq)]
pub struct Found {
    pub ino: Ino,
    pub snap: SnapId,
    pub attr: Attr,
}

// What a path leads to: a live inode, the `.snap` of a directory, or an inode in a snapshot.
#[derive(Clone, Copy, Debug)]
pub(crate) enum Reached {
    Live(Ino),
    Snaps(Ino),
    InSnap(Found),
}

// The refusal of a walk.
fn of_walk(error: &TreeError) -> Refusal
    ensures { (walked : Result Inode Reason) → IsRefusal error.now walked → walked ≡ Err result }
{
    match error {
        TreeError::NotDir => Refusal::NotDir,
        _ => Refusal::NoEntry,
    }
}

impl MetaState {
    // The inode at the end of some names, at an id.
    fn walk(&self, start: Ino, names: &[Name], s: SnapId) -> Result<Ino, Refusal>
        ensures { walk (kind_of self.now.names) (entries_at s self.now.names) start names.now ≡ result }
    {
        match self.names.walk_names(start, names, s) {
            Ok(ino) => Ok(ino),
            Err(error) => Err(of_walk(&error)),
        }
    }

    // The live inode at the end of some names.
    pub(crate) fn live(&self, names: &[Name]) -> Result<Ino, Refusal>
        ensures { (entries : List Entry) → StandsFor self.now entries
            → walk_live (tree_of (state_after entries)) names.now ≡ result }
    {
        self.walk(ROOT, names, NOSNAP)
    }

    // The live directory at the end of some names.
    fn directory(&self, names: &[Name]) -> Result<Ino, Refusal>
        ensures { (entries : List Entry) → StandsFor self.now entries
            → directory_at (state_after entries) names.now ≡ result }
    {
        match self.live(names) {
            Ok(dir) => match self.names.kind_of(dir) {
                Kind::Dir => Ok(dir),
                Kind::File => Err(Refusal::NotDir),
            },
            Err(refusal) => Err(refusal),
        }
    }

    // What an inode that was made is now.
    pub(crate) fn now_at(&self, ino: Ino) -> Attr
        ensures { (attr : Shape) → head_of self.now.inodes ino ≡ Some attr → result ≡ attr }
    {
        match self.inodes.head(ino) {
            Some(attr) => attr,
            None => Attr {
                kind: Kind::Dir,
                mode: 0o755,
                size: 0,
            },
        }
    }

    // What an inode was at an id, if the table has a version for it, else what it is now.
    fn was_at(&self, ino: Ino, s: SnapId) -> Attr
        ensures { (attr : Shape) → attr_at self.now.inodes ino s ≡ Some attr → result ≡ attr }
    {
        match self.inodes.at(ino, s) {
            Some(attr) => attr,
            None => self.now_at(ino),
        }
    }

    // The id of the snapshot that a directory shows under a name.
    fn snap_named(&self, dir: Ino, name: &Name) -> Option<SnapId>
        requires directory { HasDirectory self.now dir }
        ensures { (entries : List Entry) → StandsFor self.now entries
            → id_named (shown entries dir) name.now ≡ result }
    {
        self.realms.snap_named(dir, name)
    }

    /// What a path below a directory's snapshot leads to: the snapshot that the directory shows under the name, and from the
    /// directory on the names as they stood then. What the inode was there is known where each flush of it came when all
    /// ids that it names were made. Refused with `NoSnap` where the directory shows none under that name, and then as a walk
    /// is, with `NotDir` where a name is looked up in a file and `NoEntry` where it isn't there. It takes no memory.
    pub fn snap_find(&self, dir: Ino, name: &Name, below: &[Name]) -> Result<Found, Refusal>
        requires directory { HasDirectory self.now dir }
        ensures found { (entries : List Entry) → StandsFor self.now entries
            → IsFoundBelow entries (found_below entries dir name.now below.now) result }
    {
        match self.snap_named(dir, name) {
            Some(snap) => match self.walk(dir, below, snap) {
                Ok(ino) => Ok(Found {
                    ino,
                    snap,
                    attr: self.was_at(ino, snap),
                }),
                Err(refusal) => Err(refusal),
            },
            None => Err(Refusal::NoSnap),
        }
    }

    // What a path leads to.
    pub(crate) fn reach(&self, path: &Path) -> Result<Reached, Refusal>
        requires state { IsState self.now }
        ensures { (entries : List Entry) → StandsFor self.now entries → IsReached entries (found entries path.now) result }
    {
        match path.target() {
            Target::Live(names) => match self.live(names) {
                Ok(ino) => Ok(Reached::Live(ino)),
                Err(refusal) => Err(refusal),
            },
            Target::Snaps(dir) => match self.directory(dir) {
                Ok(dir) => Ok(Reached::Snaps(dir)),
                Err(refusal) => Err(refusal),
            },
            Target::InSnap(dir, name, below) => match self.directory(dir) {
                Ok(dir) => match self.snap_find(dir, name, below) {
                    Ok(found) => Ok(Reached::InSnap(found)),
                    Err(refusal) => Err(refusal),
                },
                Err(refusal) => Err(refusal),
            },
        }
    }
}
