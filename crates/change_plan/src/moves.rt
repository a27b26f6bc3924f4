// What moves come to, with their refusals.
ghost use Rattle.std.specs.Prelude.{◌≡◌, Ok, Err, IfOk, IfErr};
ghost use Rattle.snap_ids.specs.declared.id.Ino.{Ino as Inode};
ghost use Rattle.plain_tree.specs.Change.{entry};
ghost use Rattle.plain_tree.specs.Request.{new_entry};
ghost use Rattle.realm_story.specs.Family.{Family};
ghost use Rattle.snap_realm.specs.Tree.{StandsFor};
ghost use Rattle.rename_split.specs.Paths.{last_name};
ghost use Rattle.rename_split.specs.Plans.{IsOf, live, link_of, move_of, stray_of};

use crate::cause::of_plan;
use dentry_tree::DirTree;
use plain_types::Refusal;
use rename_split::{MovePlan, plan_link, plan_move, plan_new, plan_stray};
use snap_ids::{Ino, Path};
use snap_realm::RealmTree;

// The directory of a new name.
pub(crate) fn new_name(names: &DirTree, path: &Path) -> Result<Ino, Refusal>
    ensures planned { IfOk result (λ dir. (ino : Inode)
        → new_entry (live names.now) ino path.now ≡ Ok (entry dir (last_name path.now) ino)) }
    ensures refused { IfErr result (λ reason. (ino : Inode) → new_entry (live names.now) ino path.now ≡ Err reason) }
{
    match plan_new(names, path) {
        Ok(dir) => Ok(dir),
        Err(error) => Err(of_plan(&error)),
    }
}

// A name that goes.
pub(crate) fn lost_name(
    names: &DirTree,
    realms: &RealmTree,
    path: &Path,
    is_rmdir: bool,
) -> Result<MovePlan, Refusal>
    requires { IsOf (live names.now) realms.now }
    ensures { (family : Family) → StandsFor realms.now family → stray_of (live names.now) family path.now is_rmdir ≡ result }
{
    match plan_stray(names, realms, path, is_rmdir) {
        Ok(plan) => Ok(plan),
        Err(error) => Err(of_plan(&error)),
    }
}

// A further name.
pub(crate) fn further_name(
    names: &DirTree,
    realms: &RealmTree,
    path: &Path,
    target: &Path,
) -> Result<MovePlan, Refusal>
    ensures { link_of (live names.now) path.now target.now ≡ result }
{
    match plan_link(names, realms, path, target) {
        Ok(plan) => Ok(plan),
        Err(error) => Err(of_plan(&error)),
    }
}

// Another name.
pub(crate) fn other_name(
    names: &DirTree,
    realms: &RealmTree,
    path: &Path,
    target: &Path,
) -> Result<MovePlan, Refusal>
    requires { IsOf (live names.now) realms.now }
    ensures { (family : Family) → StandsFor realms.now family
        → move_of (live names.now) family path.now target.now ≡ result }
{
    match plan_move(names, realms, path, target) {
        Ok(plan) => Ok(plan),
        Err(error) => Err(of_plan(&error)),
    }
}
