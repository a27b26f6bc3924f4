// The entries of a tree, now and as they were.
ghost use Rattle.std.specs.Prelude.{max, ◌≡◌, ◌↔◌, ◌<◌, ◌≤◌, [], true, None, Some, Ok, Err, slice_get, if◌then◌else◌, IsSome, IfOk, IfErr, OnOk, OnErr, IsErrOf};
ghost use Rattle.std.specs.List.{list_any};
ghost use Rattle.snap_ids.specs.Context.{is_listed};
ghost use Rattle.snap_ids.specs.declared.id.SnapId.{SnapId};
ghost use Rattle.snap_ids.specs.declared.id.Ino.{Ino as Inode};
ghost use Rattle.snap_ids.specs.declared.values.Kind.TheVariants.{Dir};
ghost use Rattle.plain_tree.specs.State.{Entry, lookup, add, listing, same_ino};
ghost use Rattle.plain_tree.specs.Change.{without, entry};
ghost use Rattle.plain_tree.specs.Walk.{walk};
ghost use Rattle.dentry_tree.specs.Dentries.{entries_at, kind_of, newest};
ghost use Rattle.dentry_tree.specs.Places.{IsPlace, found_at, trimmed_all, count_unneeded, Cuts};
ghost use Rattle.dentry_tree.specs.Answers.{IsRefusal, IsOfPut, file_answer, dir_answer};

use crate::dentry::Dentry;
use crate::error::TreeError;
use crate::kinds::Kinds;
use crate::places::{
    cut, find, found_at, has_some, listed, of_directory, place, put, trim, unneeded,
};
use snap_ids::{Entries, Ids, Ino, Kind, NOSNAP, Name, Path, SnapId};
use std::alloc::Global;
use std::marker::Model;

/// The entries of a tree, each valid from a first to a last id of a snapshot, and what each inode is. Contracts speak of
/// the entries as they stood when an id was applied (`entries_at`; those at NOSNAP are live), of what an inode is
/// (`kind_of`), and of the last id at which an entry began or ended (`newest`). Ceph developer guide, CephFS Snapshots,
/// "Dentries and inodes".
#[derive(Debug, Drop)]
pub struct DirTree {
    dentries: Vec<Dentry>,
    kinds: Kinds,
    // How many versions there are.
    count: usize,
}

impl Model for DirTree {
    ghost use Rattle.std.specs.Prelude.{◌≡◌};
    ghost use Rattle.dentry_tree.specs.Dentries.{Tree, AreDentries, total};

    ghost Value = { Tree };

    ghost view = { λ tree. record { dentries = tree.dentries.items; kinds = tree.kinds } };

    ghost invariant = { λ tree. AreDentries tree.dentries.items × (tree.count ≡ total tree.dentries.items) };
}

impl DirTree {
    /// The root and the stray root, with no entry. It fails only with `NoMemory`.
    #[tactic(auto, unfolding(crate::specs::Dentries::entries_in, crate::specs::Dentries::kind_in, crate::specs::Dentries::newest_in))]
    pub fn new(alloc: Global) -> Result<DirTree, TreeError>
        ensures entries { IfOk result (λ tree. (s : SnapId) → entries_at s tree ≡ []) }
        ensures kinds { IfOk result (λ tree. (i : Inode) → kind_of tree i ≡ Dir) }
        ensures newest { IfOk result (λ tree. newest tree ≡ 0) }
        ensures no_memory { IfErr result (λ error. error ≡ TreeError.NoMemory) }
    {
        Ok(DirTree {
            dentries: Vec::new(alloc),
            kinds: Kinds::new(alloc),
            count: 0,
        })
    }

    /// A name gets an entry, valid from the id after `applied` on: what stood when an earlier id was applied stays as it
    /// was. From then on its inode is of this kind. `Exists` exactly where the name has a live entry, which takes no
    /// memory to see. No entry began after the next id or ended after `applied` so far, and this holds then of any later
    /// id too. At an error all is as before.
    pub fn put(
        &mut self,
        dir: Ino,
        name: Name,
        ino: Ino,
        kind: Kind,
        applied: SnapId,
    ) -> Result<(), TreeError>
        requires before_nosnap { applied.0 < NOSNAP.0 }
        requires newest { newest self.old ≤ applied.0 }
        ensures earlier { OnOk result ((s : SnapId) → s.0 ≤ applied.0 → entries_at s self.new
            ≡ entries_at s self.old) }
        ensures later { OnOk result ((s : SnapId) → applied.0 < s.0 → s.0 ≤ NOSNAP.0
            → entries_at s self.new ≡ add (entry dir name ino) (entries_at s self.old)) }
        ensures kinds { OnOk result ((i : Inode) → kind_of self.new i
            ≡ (if same_ino i ino then kind else kind_of self.old i)) }
        ensures newest { OnOk result (newest self.new ≤ applied.0) }
        ensures free { OnOk result (lookup (entries_at NOSNAP self.old) dir name ≡ None) }
        ensures exists { IsErrOf result TreeError.Exists ↔ IsSome (lookup
            (entries_at NOSNAP self.old) dir name) }
        ensures no_other { IfErr result IsOfPut }
        ensures err { OnErr result (self.new ≡ self.old) }
    {
        let alloc = *self.dentries.allocator();
        let place = self.place(dir, name.as_bytes());
        if self.live_at(place, dir, name.as_bytes()).is_some() {
            return Err(TreeError::Exists);
        }
        if self.count == usize::MAX {
            return Err(TreeError::NoMemory);
        }
        put(
            alloc,
            &mut self.dentries,
            place,
            dir,
            name,
            ino,
            applied,
            &mut self.kinds,
            kind,
        )?;
        self.count += 1;
        Ok(())
    }

    // A name, whose place this is and which has a live entry, loses it from the id after `applied` on.
    fn cut(&mut self, place: usize, dir: Ino, name: &Name, applied: SnapId)
        requires place { IsPlace dir name.now self.old.dentries place }
        requires there { IsSome (found_at NOSNAP dir name.now (slice_get self.old.dentries place)) }
        ensures cuts { Cuts applied dir name.now self.old.dentries self.new.dentries }
        ensures kinds { self.new.kinds ≡ self.old.kinds }
    {
        let dropped = cut(&mut self.dentries, place, dir, name.as_bytes(), applied);
        self.count -= dropped;
    }

    // Where a name of a directory stands, or would stand.
    fn place(&self, dir: Ino, name: &[u8]) -> usize
        ensures { IsPlace dir name.now self.now.dentries result }
    {
        place(&self.dentries, dir, name)
    }

    // What a name of a directory has now, where this is its place.
    fn live_at(&self, place: usize, dir: Ino, name: &[u8]) -> Option<Ino>
        requires { IsPlace dir name.now self.now.dentries place }
        ensures found { result ≡ found_at NOSNAP dir name.now (slice_get self.now.dentries place) }
        ensures live { result ≡ lookup (entries_at NOSNAP self.now) dir name.now }
    {
        found_at(&self.dentries, place, dir, name, NOSNAP)
    }

    /// What an inode was put as last; a directory where it wasn't put.
    pub fn kind_of(&self, ino: Ino) -> Kind
        ensures { result ≡ kind_of self.now ino }
    {
        self.kinds.of(ino)
    }

    /// A file's name loses its entry from the id after `applied` on: what stood when an earlier id was applied stays as it
    /// was, and an entry that was valid at no such id goes. Answers the inode that it named. `NoEntry` exactly where the
    /// name has no live entry, `IsDir` exactly where that is a directory. It takes no memory.
    pub fn cut_file(&mut self, dir: Ino, name: &Name, applied: SnapId) -> Result<Ino, TreeError>
        ensures answer { result ≡ file_answer (kind_of self.old) (lookup (entries_at NOSNAP self.old) dir name.now) }
        ensures earlier { OnOk result ((s : SnapId) → s.0 ≤ applied.0 → entries_at s self.new
            ≡ entries_at s self.old) }
        ensures later { OnOk result ((s : SnapId) → applied.0 < s.0 → entries_at s self.new
            ≡ without dir name.now (entries_at s self.old)) }
        ensures kinds { (i : Inode) → kind_of self.new i ≡ kind_of self.old i }
        ensures newest { newest self.new ≤ max (newest self.old) applied.0 }
        ensures err { OnErr result (self.new ≡ self.old) }
    {
        let place = self.place(dir, name.as_bytes());
        match self.live_at(place, dir, name.as_bytes()) {
            None => Err(TreeError::NoEntry),
            Some(ino) => match self.kind_of(ino) {
                Kind::Dir => Err(TreeError::IsDir),
                Kind::File => {
                    self.cut(place, dir, name, applied);
                    Ok(ino)
                }
            },
        }
    }

    /// The same of a directory's name: `NoEntry` exactly where the name has no live entry, `NotDir` exactly where that is a
    /// file. What lies in the directory stays. It takes no memory.
    pub fn cut_dir(&mut self, dir: Ino, name: &Name, applied: SnapId) -> Result<Ino, TreeError>
        ensures answer { result ≡ dir_answer (kind_of self.old) (lookup (entries_at NOSNAP self.old) dir name.now) }
        ensures earlier { OnOk result ((s : SnapId) → s.0 ≤ applied.0 → entries_at s self.new
            ≡ entries_at s self.old) }
        ensures later { OnOk result ((s : SnapId) → applied.0 < s.0 → entries_at s self.new
            ≡ without dir name.now (entries_at s self.old)) }
        ensures kinds { (i : Inode) → kind_of self.new i ≡ kind_of self.old i }
        ensures newest { newest self.new ≤ max (newest self.old) applied.0 }
        ensures err { OnErr result (self.new ≡ self.old) }
    {
        let place = self.place(dir, name.as_bytes());
        match self.live_at(place, dir, name.as_bytes()) {
            None => Err(TreeError::NoEntry),
            Some(ino) => match self.kind_of(ino) {
                Kind::File => Err(TreeError::NotDir),
                Kind::Dir => {
                    self.cut(place, dir, name, applied);
                    Ok(ino)
                }
            },
        }
    }

    /// What a name of a directory has at an id: None exactly where no entry of that name holds it.
    pub fn at(&self, dir: Ino, name: &Name, s: SnapId) -> Option<Ino>
        ensures { result ≡ lookup (entries_at s self.now) dir name.now }
    {
        find(&self.dentries, dir, name.as_bytes(), s)
    }

    /// The inode at the end of a path from an inode, at an id. At the first name that fails it answers `NotDir` where the
    /// name is looked up in a file, and `NoEntry` where it isn't there.
    pub fn walk(&self, start: Ino, path: &Path, s: SnapId) -> Result<Ino, TreeError>
        ensures found { IfOk result (λ ino. walk (kind_of self.now) (entries_at s self.now) start path.now ≡ Ok ino) }
        ensures refused { IfErr result (λ error.
            IsRefusal error (walk (kind_of self.now) (entries_at s self.now) start path.now)) }
    {
        self.walk_names(start, path.names(), s)
    }

    /// The same along a part of a path.
    pub fn walk_names(&self, start: Ino, names: &[Name], s: SnapId) -> Result<Ino, TreeError>
        ensures found { IfOk result (λ ino. walk (kind_of self.now) (entries_at s self.now) start names.now ≡ Ok ino) }
        ensures refused { IfErr result (λ error.
            IsRefusal error (walk (kind_of self.now) (entries_at s self.now) start names.now)) }
    {
        let mut at = start;
        let mut left = names;
        while let Some((name, rest)) = left.split_first() {
            if self.kind_of(at) == Kind::File {
                return Err(TreeError::NotDir);
            }
            match self.at(at, name, s) {
                Some(ino) => at = ino,
                None => return Err(TreeError::NoEntry),
            }
            left = rest;
        }
        Ok(at)
    }

    /// What a directory lists at an id, by the bytes of the names, each with what it names. It fails only with `NoMemory`.
    pub fn list(&self, dir: Ino, s: SnapId) -> Result<Entries, TreeError>
        ensures listed { IfOk result (λ entries. entries ≡ listing (kind_of self.now) (entries_at s self.now) dir) }
        ensures no_memory { IfErr result (λ error. error ≡ TreeError.NoMemory) }
    {
        let alloc = *self.dentries.allocator();
        match listed(alloc, of_directory(&self.dentries, dir), s, &self.kinds) {
            Ok(items) => Ok(Entries::from_vec(items)),
            Err(error) => Err(error),
        }
    }

    /// Whether a directory has an entry at an id. It takes no memory.
    pub fn has_entries(&self, dir: Ino, s: SnapId) -> bool
        ensures { result ≡ list_any (λ (entry : Entry). same_ino entry.dir dir) (entries_at s self.now) }
    {
        has_some(of_directory(&self.dentries, dir), s)
    }

    /// Drops the versions of entries that are neither live nor valid at an id of a list, and answers how many. What stood
    /// at each id of the list stays, and so does what is live. It takes no memory.
    pub fn trim(&mut self, live: &Ids) -> usize
        ensures live { (s : SnapId) → is_listed s live.now ≡ true → entries_at s self.new ≡ entries_at s self.old }
        ensures nosnap { entries_at NOSNAP self.new ≡ entries_at NOSNAP self.old }
        ensures kinds { (i : Inode) → kind_of self.new i ≡ kind_of self.old i }
        ensures newest { newest self.new ≤ newest self.old }
        ensures later { (s : SnapId) → newest self.old < s.0 → s.0 ≤ NOSNAP.0 → entries_at s self.new
            ≡ entries_at s self.old }
        ensures dropped { self.new.dentries ≡ trimmed_all live.now self.old.dentries }
        ensures count { result ≡ count_unneeded live.now self.old.dentries }
    {
        let dropped = unneeded(&self.dentries, live);
        trim(&mut self.dentries, live);
        self.count -= dropped;
        dropped
    }
}
