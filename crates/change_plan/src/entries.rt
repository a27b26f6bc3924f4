// Changes of names.
ghost use Rattle.std.specs.Prelude.{◌≡◌};
ghost use Rattle.snap_ids.specs.Path.{place_of};
ghost use Rattle.plain_tree.specs.Request.{on_live};
ghost use Rattle.realm_story.specs.Family.{Family};
ghost use Rattle.snap_realm.specs.Tree.{StandsFor};
ghost use Rattle.rename_split.specs.Plans.{IsOf, live};
ghost use Rattle.change_plan.specs.Causes.{Plans};
ghost use Rattle.change_plan.specs.Asked.{made_dir, made_file, removed, unlinked, linked, moved_by, renamed};

use crate::cause::Cause;
use crate::moves::{further_name, lost_name, new_name, other_name};
use crate::names::{copy_of, is_live, last};
use dentry_tree::DirTree;
use plain_types::{Change, Refusal};
use rename_split::MovePlan;
use snap_ids::{Ino, Path};
use snap_realm::RealmTree;

// A new directory.
pub(crate) fn make_dir(names: &DirTree, next: Ino, path: &Path) -> Result<Change, Cause>
    ensures { Plans result (made_dir (live names.now) next path.now) }
{
    let dir = match new_name(names, path) {
        Ok(dir) => dir,
        Err(reason) => return Err(Cause::Refused(reason)),
    };
    let Some(name) = last(path) else {
        return Err(Cause::Refused(Refusal::BadName));
    };
    match copy_of(name) {
        Ok(name) => Ok(Change::Mkdir {
            dir,
            name,
            ino: next,
        }),
        Err(_) => Err(Cause::NoMemory),
    }
}

// A new file, at a live path.
fn make_file(names: &DirTree, next: Ino, path: &Path, mode: u16) -> Result<Change, Cause>
    ensures { Plans result (made_file (live names.now) next mode path.now) }
{
    let dir = match new_name(names, path) {
        Ok(dir) => dir,
        Err(reason) => return Err(Cause::Refused(reason)),
    };
    let Some(name) = last(path) else {
        return Err(Cause::Refused(Refusal::BadName));
    };
    match copy_of(name) {
        Ok(name) => Ok(Change::Create {
            dir,
            name,
            ino: next,
            mode,
        }),
        Err(_) => Err(Cause::NoMemory),
    }
}

// A new file.
pub(crate) fn create(names: &DirTree, next: Ino, path: &Path, mode: u16) -> Result<Change, Cause>
    ensures { Plans result (on_live (place_of path.now) (made_file (live names.now) next mode)) }
{
    if !is_live(path) {
        return Err(Cause::Refused(Refusal::ReadOnly));
    }
    make_file(names, next, path, mode)
}

// A directory that goes.
pub(crate) fn remove_dir(names: &DirTree, realms: &RealmTree, path: &Path) -> Result<Change, Cause>
    requires { IsOf (live names.now) realms.now }
    ensures { (family : Family) → StandsFor realms.now family → Plans result (removed (live names.now) family path.now) }
{
    let plan = match lost_name(names, realms, path, true) {
        Ok(plan) => plan,
        Err(reason) => return Err(Cause::Refused(reason)),
    };
    let Some(dir) = plan.from_dir else {
        return Err(Cause::Refused(Refusal::BadName));
    };
    let Some(name) = last(path) else {
        return Err(Cause::Refused(Refusal::BadName));
    };
    match copy_of(name) {
        Ok(name) => Ok(Change::Rmdir { dir, name }),
        Err(_) => Err(Cause::NoMemory),
    }
}

// A name of a file that goes, at a live path.
fn lose_name(names: &DirTree, realms: &RealmTree, path: &Path) -> Result<Change, Cause>
    requires { IsOf (live names.now) realms.now }
    ensures { (family : Family) → StandsFor realms.now family → Plans result (unlinked (live names.now) family path.now) }
{
    let plan = match lost_name(names, realms, path, false) {
        Ok(plan) => plan,
        Err(reason) => return Err(Cause::Refused(reason)),
    };
    let Some(dir) = plan.from_dir else {
        return Err(Cause::Refused(Refusal::BadName));
    };
    let Some(name) = last(path) else {
        return Err(Cause::Refused(Refusal::BadName));
    };
    match copy_of(name) {
        Ok(name) => Ok(Change::Unlink { dir, name }),
        Err(_) => Err(Cause::NoMemory),
    }
}

// A name of a file that goes.
pub(crate) fn unlink(names: &DirTree, realms: &RealmTree, path: &Path) -> Result<Change, Cause>
    requires { IsOf (live names.now) realms.now }
    ensures { (family : Family) → StandsFor realms.now family
        → Plans result (on_live (place_of path.now) (unlinked (live names.now) family)) }
{
    if !is_live(path) {
        return Err(Cause::Refused(Refusal::ReadOnly));
    }
    lose_name(names, realms, path)
}

// A further name, at live paths.
fn add_name(
    names: &DirTree,
    realms: &RealmTree,
    path: &Path,
    target: &Path,
) -> Result<Change, Cause>
    ensures { Plans result (linked (live names.now) path.now target.now) }
{
    let plan = match further_name(names, realms, path, target) {
        Ok(plan) => plan,
        Err(reason) => return Err(Cause::Refused(reason)),
    };
    let Some(dir) = plan.to_dir else {
        return Err(Cause::Refused(Refusal::BadName));
    };
    let Some(name) = last(target) else {
        return Err(Cause::Refused(Refusal::BadName));
    };
    match copy_of(name) {
        Ok(name) => Ok(Change::Link {
            ino: plan.ino,
            dir,
            name,
        }),
        Err(_) => Err(Cause::NoMemory),
    }
}

// A further name.
pub(crate) fn link(
    names: &DirTree,
    realms: &RealmTree,
    path: &Path,
    target: &Path,
) -> Result<Change, Cause>
    ensures { Plans result
        (on_live (place_of path.now) (λ from. on_live (place_of target.now) (linked (live names.now) from))) }
{
    if !is_live(path) {
        return Err(Cause::Refused(Refusal::ReadOnly));
    }
    if !is_live(target) {
        return Err(Cause::Refused(Refusal::ReadOnly));
    }
    add_name(names, realms, path, target)
}

// The change of a move between two directories.
fn moved(plan: MovePlan, path: &Path, target: &Path) -> Result<Change, Cause>
    ensures { Plans result (moved_by plan path.now target.now) }
{
    let Some(dir) = plan.from_dir else {
        return Err(Cause::Refused(Refusal::BadName));
    };
    let Some(name) = last(path) else {
        return Err(Cause::Refused(Refusal::BadName));
    };
    let Some(to_dir) = plan.to_dir else {
        return Err(Cause::Refused(Refusal::BadName));
    };
    let Some(to_name) = last(target) else {
        return Err(Cause::Refused(Refusal::BadName));
    };
    match (copy_of(name), copy_of(to_name)) {
        (Ok(name), Ok(to_name)) => Ok(Change::Rename {
            dir,
            name,
            to_dir,
            to_name,
        }),
        _ => Err(Cause::NoMemory),
    }
}

// Another name, at live paths.
fn move_name(
    names: &DirTree,
    realms: &RealmTree,
    path: &Path,
    target: &Path,
) -> Result<Change, Cause>
    requires { IsOf (live names.now) realms.now }
    ensures { (family : Family) → StandsFor realms.now family
        → Plans result (renamed (live names.now) family path.now target.now) }
{
    match other_name(names, realms, path, target) {
        Ok(plan) => moved(plan, path, target),
        Err(reason) => Err(Cause::Refused(reason)),
    }
}

// Another name.
pub(crate) fn rename(
    names: &DirTree,
    realms: &RealmTree,
    path: &Path,
    target: &Path,
) -> Result<Change, Cause>
    requires { IsOf (live names.now) realms.now }
    ensures { (family : Family) → StandsFor realms.now family → Plans result
        (on_live (place_of path.now) (λ from. on_live (place_of target.now) (renamed (live names.now) family from))) }
{
    if !is_live(path) {
        return Err(Cause::Refused(Refusal::ReadOnly));
    }
    if !is_live(target) {
        return Err(Cause::Refused(Refusal::ReadOnly));
    }
    move_name(names, realms, path, target)
}
