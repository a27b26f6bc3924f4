// Snapshots, and directories in their place.
ghost use Rattle.std.specs.Prelude.{◌≡◌};
ghost use Rattle.snap_ids.specs.Path.{place_of};
ghost use Rattle.realm_story.specs.Family.{Family};
ghost use Rattle.snap_realm.specs.Refusals.{id_named};
ghost use Rattle.snap_realm.specs.Tree.{StandsFor};
ghost use Rattle.rename_split.specs.Plans.{IsOf, live};
ghost use Rattle.change_plan.specs.Causes.{Plans};
ghost use Rattle.change_plan.specs.Asked.{at_directory, dropped, gone, made, snap_in};

use crate::cause::{Cause, of_snap};
use crate::entries::{make_dir, remove_dir};
use crate::names::{copy_of, directory};
use dentry_tree::DirTree;
use plain_types::{Change, Refusal};
use snap_ids::{Ino, Name, Path, SnapId, Target};
use snap_realm::RealmTree;

// A new snapshot of a directory that is there.
fn snap_in(realms: &RealmTree, id: SnapId, name: &Name, dir: Ino) -> Result<Change, Cause>
    ensures { (family : Family) → StandsFor realms.now family → Plans result (snap_in family id name.now dir) }
{
    if !name.is_new_snap() {
        return Err(Cause::Refused(Refusal::BadName));
    }
    if let Some(error) = realms.refusal(dir, name) {
        return Err(Cause::Refused(of_snap(error)));
    }
    match copy_of(name) {
        Ok(name) => Ok(Change::Mksnap { id, dir, name }),
        Err(_) => Err(Cause::NoMemory),
    }
}

// A new snapshot.
fn make_snap(
    names: &DirTree,
    realms: &RealmTree,
    id: SnapId,
    dir: &[Name],
    name: &Name,
) -> Result<Change, Cause>
    ensures { (family : Family) → StandsFor realms.now family
        → Plans result (at_directory (live names.now) dir.now (snap_in family id name.now)) }
{
    match directory(names, dir) {
        Ok(dir) => snap_in(realms, id, name, dir),
        Err(reason) => Err(Cause::Refused(reason)),
    }
}

// A snapshot that goes.
fn drop_snap(
    names: &DirTree,
    realms: &RealmTree,
    dir: &[Name],
    name: &Name,
) -> Result<Change, Cause>
    ensures { (family : Family) → StandsFor realms.now family → Plans result
        (at_directory (live names.now) dir.now (λ dir. dropped (id_named dir name.now family.snaps))) }
{
    match directory(names, dir) {
        Ok(dir) => match realms.own_snap(dir, name) {
            Some(id) => Ok(Change::Rmsnap { id }),
            None => Err(Cause::Refused(Refusal::NoSnap)),
        },
        Err(reason) => Err(Cause::Refused(reason)),
    }
}

// A new directory, or a new snapshot.
pub(crate) fn mkdir(
    names: &DirTree,
    realms: &RealmTree,
    next: Ino,
    id: SnapId,
    path: &Path,
) -> Result<Change, Cause>
    ensures { (family : Family) → StandsFor realms.now family
        → Plans result (made (live names.now) family next id (place_of path.now)) }
{
    match path.target() {
        Target::Live(_) => make_dir(names, next, path),
        Target::InSnap(dir, name, []) => make_snap(names, realms, id, dir, name),
        _ => Err(Cause::Refused(Refusal::ReadOnly)),
    }
}

// A directory that goes, or a snapshot.
pub(crate) fn rmdir(names: &DirTree, realms: &RealmTree, path: &Path) -> Result<Change, Cause>
    requires { IsOf (live names.now) realms.now }
    ensures { (family : Family) → StandsFor realms.now family
        → Plans result (gone (live names.now) family (place_of path.now)) }
{
    match path.target() {
        Target::Live(_) => remove_dir(names, realms, path),
        Target::InSnap(dir, name, []) => drop_snap(names, realms, dir, name),
        _ => Err(Cause::Refused(Refusal::ReadOnly)),
    }
}
