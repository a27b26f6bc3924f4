// Names of paths, and where paths lead.
ghost use Rattle.std.specs.Prelude.{◌≡◌, ◌-◌, ℕ, List, Result, Ok, Err, IfOk, IfErr, length, slice_get, option_map, if◌then◌else◌};
ghost use Rattle.snap_ids.specs.Path.{place_of};
ghost use Rattle.snap_ids.specs.declared.id.Ino.{Ino as Inode};
ghost use Rattle.plain_types.specs.declared.answer.Refusal.{Refusal as Reason};
ghost use Rattle.plain_types.specs.declared.answer.Refusal.TheVariants.{ReadOnly};
ghost use Rattle.plain_types.specs.declared.change.Change.{Change};
ghost use Rattle.plain_tree.specs.Request.{on_live, walk_live};
ghost use Rattle.rename_split.specs.Plans.{live};
ghost use Rattle.change_plan.specs.Asked.{last_of, at_directory};

use crate::cause::of_walk;
use dentry_tree::DirTree;
use plain_types::Refusal;
use snap_ids::{Ino, Kind, NOSNAP, Name, NoMemory, Path, ROOT, Target};

// A path's last name, if it has one.
pub(crate) fn last(path: &Path) -> Option<&Name>
    ensures { option_map (λ name. name.now) result ≡ last_of path.now }
{
    path.names().last()
}

pub(crate) fn copy_of(name: &Name) -> Result<Name, NoMemory>
    ensures { IfOk result (λ copy. copy ≡ name.now) }
{
    Ok(name.clone()?)
}

// Whether a path leads to an entry of the live tree: what is under `.snap` can't be changed.
pub(crate) fn is_live(path: &Path) -> bool
    ensures { (go_on : List (List ℕ) → Result Change Reason) → on_live (place_of path.now) go_on
        ≡ (if result then go_on path.now else Err ReadOnly) }
{
    match path.target() {
        Target::Live(_) => true,
        _ => false,
    }
}

// The inode at the end of a path.
pub(crate) fn walk(names: &DirTree, path: &[Name]) -> Result<Ino, Refusal>
    ensures { walk_live (live names.now) path.now ≡ result }
{
    match names.walk_names(ROOT, path, NOSNAP) {
        Ok(ino) => Ok(ino),
        Err(error) => Err(of_walk(&error)),
    }
}

// The directory at the end of a path.
pub(crate) fn directory(names: &DirTree, path: &[Name]) -> Result<Ino, Refusal>
    ensures found { IfOk result (λ dir. (go_on : Inode → Result Change Reason)
        → at_directory (live names.now) path.now go_on ≡ go_on dir) }
    ensures refused { IfErr result (λ reason. (go_on : Inode → Result Change Reason)
        → at_directory (live names.now) path.now go_on ≡ Err reason) }
{
    match walk(names, path) {
        Ok(dir) => match names.kind_of(dir) {
            Kind::Dir => Ok(dir),
            Kind::File => Err(Refusal::NotDir),
        },
        Err(reason) => Err(reason),
    }
}
