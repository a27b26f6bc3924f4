// What one more entry makes of the tables.
ghost use Rattle.std.specs.Prelude.{◌≡◌, ◌++◌, ◌+◌, ◌<◌, ◌^◌, ◌∷◌, [], true, List, Some, IfOk, OnOk};
ghost use Rattle.snap_ids.specs.declared.id.Ino.{Ino as Inode};
ghost use Rattle.snap_ids.specs.declared.id.TheConstants.{NOSNAP};
ghost use Rattle.plain_types.specs.declared.entry.Entry.{Entry as Written};
ghost use Rattle.plain_tree.specs.State.{lookup};
ghost use Rattle.plain_journal.specs.Legal.{is_legal};
ghost use Rattle.dentry_tree.specs.Dentries.{entries_at, kind_of};
ghost use Rattle.journal_names.specs.Calls.{Gains, Loses, CanGain, CanLose};
ghost use Rattle.journal_realms.specs.Told.{snap_of, drop_found};
ghost use Rattle.journal_shapes.specs.Calls.{IsThere};
ghost use Rattle.realm_story.specs.Family.{Family, add_snap};
ghost use Rattle.snap_realm.specs.Refusals.{name_with};
ghost use Rattle.snap_realm.specs.Tree.{StandsFor as Tells};
ghost use Rattle.meta_state.specs.Applied.{Called, CanLink, CanMake, CanMakeFile, CanRemove, CanRename, CanSnap, CanUnlink, CanUnname, ChangesRealms, Drops, GoesOn, Links, Makes, MakesFile, MayCall, Moves, Removes, SetsMode, Settles, Unlinks, last};
ghost use Rattle.meta_state.specs.Stands.{StandsFor, MayFollow};

use crate::state::MetaState;
use dentry_tree::{DirTree, TreeError};
use inode_versions::Attr;
use plain_types::{Entry, What};
use snap_ids::{Ino, Kind, NOSNAP, Name, NoMemory, STRAY, SnapId};
use snap_realm::{RealmError, RealmTree};
use snap_trim::trim_all;

// What is counted stays below 2^62.
const MOST: u64 = 4611686018427387903;

// A count and one more.
fn one_more(count: u64) -> Result<u64, NoMemory>
    ensures more { IfOk result (λ more. more ≡ count + 1) }
    ensures few { IfOk result (λ more. more < 2 ^ 62) }
{
    if count >= MOST {
        return Err(NoMemory);
    }
    Ok(count + 1)
}

// A name gets an inode from the id after the last one on.
fn put(
    names: &mut DirTree,
    dir: Ino,
    name: &Name,
    ino: Ino,
    kind: Kind,
    last: SnapId,
) -> Result<(), NoMemory>
    requires { CanGain last.0 dir name.now names.old }
    ensures { OnOk result (Gains last.0 dir name.now ino kind names.old names.new) }
{
    let name = copied(name)?;
    match names.put(dir, name, ino, kind, last) {
        Ok(()) => Ok(()),
        Err(_) => Err(NoMemory),
    }
}

// A name of an inode of a kind loses that from the id after the last one on. Answers the inode.
fn cut(names: &mut DirTree, dir: Ino, name: &Name, kind: Kind, last: SnapId) -> Ino
    requires { (ino : Inode) × CanLose kind dir name.now names.old ino }
    ensures named { lookup (entries_at NOSNAP names.old) dir name.now ≡ Some result }
    ensures loses { Loses last.0 dir name.now names.old names.new }
    ensures is_kind { kind_of names.old result ≡ kind }
{
    match kind {
        Kind::Dir => match names.cut_dir(dir, name, last) {
            Ok(ino) => ino,
            Err(_) => unreachable!(),
        },
        Kind::File => match names.cut_file(dir, name, last) {
            Ok(ino) => ino,
            Err(_) => unreachable!(),
        },
    }
}

// A copy of a name.
fn copied(name: &Name) -> Result<Name, NoMemory>
    ensures { IfOk result (λ copy. copy ≡ name.now) }
{
    Ok(name.clone()?)
}

// A snapshot of a directory is made.
fn snap(realms: &mut RealmTree, id: SnapId, dir: Ino, name: &Name) -> Result<(), NoMemory>
    requires { CanSnap id dir name.now realms.old }
    ensures { OnOk result (GoesOn (add_snap dir id name.now) realms.old realms.new) }
{
    let name = copied(name)?;
    match realms.add_snap(dir, id, name) {
        Ok(()) => {}
        Err(RealmError::NoMemory) => return Err(NoMemory),
        Err(_) => unreachable!(),
    }
    Ok(())
}

// The directory and the name of the live snapshot that has an id.
fn snap_with(realms: &RealmTree, id: SnapId) -> (Ino, &Name)
    requires { CanUnname id realms.now }
    ensures { (family : Family) → Tells realms.now family → name_with id family.snaps ≡ Some (result.0, result.1.now) }
{
    match realms.name_of(id) {
        Some(named) => named,
        None => unreachable!(),
    }
}

// The same, with a copy of the name.
fn name_of(realms: &RealmTree, id: SnapId) -> Result<(Ino, Name), NoMemory>
    requires { CanUnname id realms.now }
    ensures { IfOk result (λ named. (family : Family) → Tells realms.now family
        → name_with id family.snaps ≡ Some (named.0, named.1)) }
{
    let named = snap_with(realms, id);
    let name = copied(named.1)?;
    Ok((named.0, name))
}

// The live snapshot that has an id loses its name.
fn unname(realms: &mut RealmTree, id: SnapId) -> Result<(), NoMemory>
    requires { CanUnname id realms.old }
    ensures { OnOk result (GoesOn (λ family. drop_found (snap_of family.snaps id) family) realms.old realms.new) }
{
    let (dir, name) = name_of(realms, id)?;
    match realms.drop_snap(dir, &name) {
        Ok(_) => Ok(()),
        Err(_) => unreachable!(),
    }
}

impl MetaState {
    /// One more entry of the journal. It has to be legal on this state: its change isn't refused, a new inode has the next
    /// number, a new snapshot an id above the last one and below 2^62, a flush a file that was made. It fails at want of
    /// memory, or where 2^62 entries or inodes would be counted; then the state may only be dropped.
    pub fn apply(&mut self, entry: &Entry) -> Result<(), NoMemory>
        requires legal { MayFollow self.old entry.now }
        ensures applied { OnOk result ((entries : List Written) → StandsFor self.old entries
            → is_legal entries entry.now ≡ true → StandsFor self.new (entries ++ entry.now ∷ [])) }
    {
        let entries = one_more(self.entries)?;
        self.carry_out(entry)?;
        self.entries = entries;
        Ok(())
    }

    // The calls of an entry.
    fn carry_out(&mut self, entry: &Entry) -> Result<(), NoMemory>
        requires { MayCall entry.now.client entry.now.what self.old }
        ensures { OnOk result (Called entry.now.client entry.now.what self.old self.new) }
    {
        match &entry.what {
            What::Mkdir { dir, name, ino } => self.make(*dir, name, *ino, attr(Kind::Dir, 0o755)),
            What::Create {
                dir,
                name,
                ino,
                mode,
            } => self.make_file(*dir, name, *ino, *mode),
            What::Link { ino, dir, name } => self.link(*ino, *dir, name),
            What::Unlink { dir, name } => self.unlink(*dir, name),
            What::Rmdir { dir, name } => {
                self.remove(*dir, name);
                Ok(())
            }
            What::Rename {
                dir,
                name,
                to_dir,
                to_name,
            } => self.rename(*dir, name, *to_dir, to_name),
            What::Chmod { ino, mode } => self.set_mode(*ino, *mode),
            What::OpenFile {
                handle,
                ino,
                writable,
            } => self.uses.open(entry.client, *handle, *ino, *writable),
            What::CloseFile { handle } => {
                self.uses.close(entry.client, *handle);
                Ok(())
            }
            What::Mksnap { id, dir, name } => self.make_snap(*id, *dir, name),
            What::Rmsnap { id } => self.remove_snap(*id),
            What::Settle {
                ino,
                follows,
                upto,
                size,
            } => self.settle(*ino, *follows, *upto, *size),
            What::Release { ino, follows, size } => self.settle(*ino, *follows, NOSNAP, *size),
            What::Trim { .. } => self.trim(),
            What::Purgedone { id } => {
                self.realms.purged(*id);
                Ok(())
            }
            What::Deadfile { ino } => {
                self.uses.dropped(*ino);
                Ok(())
            }
            What::Barrier { number } => {
                self.barrier = *number;
                Ok(())
            }
            What::PrepareCreate { .. } | What::PrepareDestroy { .. } | What::Rollback { .. } => {
                Ok(())
            }
        }
    }

    // A new inode with a name. It is valid from the id after the last one on.
    fn make(&mut self, dir: Ino, name: &Name, ino: Ino, attr: Attr) -> Result<(), NoMemory>
        requires { CanMake dir name.now ino self.old }
        ensures makes { OnOk result (Makes dir name.now ino attr self.old self.new) }
        ensures uses { OnOk result (self.new.uses ≡ self.old.uses) }
    {
        let made = one_more(self.made)?;
        let last = self.realms.applied();
        put(&mut self.names, dir, name, ino, attr.kind, last)?;
        let Ok(()) = self.inodes.create(ino, SnapId(last.0 + 1), attr) else {
            return Err(NoMemory);
        };
        let Ok(()) = self.realms.born(ino, dir) else {
            return Err(NoMemory);
        };
        self.made = made;
        Ok(())
    }

    // A new file.
    fn make_file(&mut self, dir: Ino, name: &Name, ino: Ino, mode: u16) -> Result<(), NoMemory>
        requires { CanMakeFile dir name.now ino self.old }
        ensures { OnOk result (MakesFile dir name.now ino mode self.old self.new) }
    {
        self.make(dir, name, ino, attr(Kind::File, mode))?;
        self.uses.made(ino)
    }

    // A further name of a file, which goes to the global realm.
    fn link(&mut self, ino: Ino, dir: Ino, name: &Name) -> Result<(), NoMemory>
        requires { CanLink ino dir name.now self.old }
        ensures { OnOk result (Links ino dir name.now self.old self.new) }
    {
        let last = self.realms.applied();
        put(&mut self.names, dir, name, ino, Kind::File, last)?;
        let Ok(()) = self.realms.to_global(ino) else {
            return Err(NoMemory);
        };
        self.uses.linked(ino)
    }

    // A file loses a name, and is moved below the stray root.
    fn unlink(&mut self, dir: Ino, name: &Name) -> Result<(), NoMemory>
        requires { CanUnlink dir name.now self.old }
        ensures { OnOk result (Unlinks dir name.now self.old self.new) }
    {
        let last = self.realms.applied();
        let ino = cut(&mut self.names, dir, name, Kind::File, last);
        let Ok(_) = self.realms.move_to(ino, STRAY) else {
            return Err(NoMemory);
        };
        self.uses.unlinked(ino);
        Ok(())
    }

    // A directory loses its name, and is there no more.
    fn remove(&mut self, dir: Ino, name: &Name)
        requires { CanRemove dir name.now self.old }
        ensures { Removes dir name.now self.old self.new }
    {
        let last = self.realms.applied();
        let ino = cut(&mut self.names, dir, name, Kind::Dir, last);
        self.realms.forget(ino);
    }

    // What has a name has another one in place of it.
    fn rename(&mut self, dir: Ino, name: &Name, to_dir: Ino, to_name: &Name) -> Result<(), NoMemory>
        requires { CanRename dir name.now to_dir to_name.now self.old }
        ensures { OnOk result (Moves dir name.now to_dir to_name.now self.old self.new) }
    {
        let last = self.realms.applied();
        let Some(named) = self.names.at(dir, name, NOSNAP) else {
            unreachable!()
        };
        let kind = self.names.kind_of(named);
        let ino = cut(&mut self.names, dir, name, kind, last);
        put(&mut self.names, to_dir, to_name, ino, kind, last)?;
        let Ok(_) = self.realms.move_to(ino, to_dir) else {
            return Err(NoMemory);
        };
        Ok(())
    }

    // Another mode, at the ids after the last one.
    fn set_mode(&mut self, ino: Ino, mode: u16) -> Result<(), NoMemory>
        requires { IsThere ino (last self.old) self.old.inodes }
        ensures { OnOk result (SetsMode ino mode self.old self.new) }
    {
        let Some(head) = self.inodes.head(ino) else {
            unreachable!()
        };
        let attr = Attr { mode, ..head };
        match self.inodes.change(ino, self.realms.applied(), attr) {
            Ok(()) => Ok(()),
            Err(_) => Err(NoMemory),
        }
    }

    // A new snapshot of a directory.
    fn make_snap(&mut self, id: SnapId, dir: Ino, name: &Name) -> Result<(), NoMemory>
        requires { CanSnap id dir name.now self.old.realms }
        ensures { OnOk result (ChangesRealms (add_snap dir id name.now) self.old self.new) }
    {
        snap(&mut self.realms, id, dir, name)
    }

    // A snapshot loses its name.
    fn remove_snap(&mut self, id: SnapId) -> Result<(), NoMemory>
        requires { CanUnname id self.old.realms }
        ensures { OnOk result (ChangesRealms (λ family. drop_found (snap_of family.snaps id) family) self.old self.new) }
    {
        unname(&mut self.realms, id)
    }

    // A size at the ids above one and up to another.
    fn settle(&mut self, ino: Ino, follows: SnapId, upto: SnapId, size: u32) -> Result<(), NoMemory>
        requires { IsThere ino follows self.old.inodes }
        ensures { OnOk result (Settles ino follows upto size self.old self.new) }
    {
        match self.inodes.settle(ino, follows, upto, size) {
            Ok(()) => Ok(()),
            Err(_) => Err(NoMemory),
        }
    }

    // What no live snapshot needs is dropped.
    fn trim(&mut self) -> Result<(), NoMemory>
        ensures { OnOk result (Drops self.old self.new) }
    {
        let Ok(live) = self.realms.live() else {
            return Err(NoMemory);
        };
        trim_all(&mut self.inodes, &mut self.names, &live);
        Ok(())
    }
}

// What is new, without bytes.
fn attr(kind: Kind, mode: u16) -> Attr
    ensures { result ≡ record { kind = kind; mode = mode; size = 0 } }
{
    Attr {
        kind,
        mode,
        size: 0,
    }
}
