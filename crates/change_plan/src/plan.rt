// What a request comes to.
ghost use Rattle.std.specs.Prelude.{◌≡◌, true, Some, Result, IfOk, OnErr};
ghost use Rattle.plain_types.specs.declared.answer.Refusal.{Refusal as Reason};
ghost use Rattle.plain_types.specs.declared.change.Change.{Change as Made};
ghost use Rattle.plain_tree.specs.State.{State};
ghost use Rattle.plain_tree.specs.Request.{change_asked};
ghost use Rattle.realm_story.specs.Family.{Family};
ghost use Rattle.snap_realm.specs.Tree.{StandsFor};
ghost use Rattle.rename_split.specs.Plans.{IsOf, live};
ghost use Rattle.change_plan.specs.Asked.{asked};
ghost use Rattle.change_plan.specs.Causes.{Answers, Plans, is_named};
ghost use Rattle.change_plan.specs.Tables.{Show};

use crate::cause::Cause;
use crate::entries::{create, link, rename, unlink};
use crate::files::{chmod, close, open};
use crate::snaps::{mkdir, rmdir};
use dentry_tree::DirTree;
use file_uses::FileUses;
use plain_types::{Change, Refusal, Request};
use snap_ids::{Ino, NoMemory, SnapId};
use snap_realm::RealmTree;

// The answer that a plan gives.
fn answer(planned: Result<Change, Cause>) -> Result<Option<Result<Change, Refusal>>, NoMemory>
    ensures { (told : Result Made Reason) → Plans planned told → Answers result (Some told) }
{
    match planned {
        Ok(change) => Ok(Some(Ok(change))),
        Err(Cause::Refused(refusal)) => Ok(Some(Err(refusal))),
        Err(Cause::NoMemory) => Err(NoMemory),
    }
}

// What a request comes to, by a story that the realms stand for.
fn plan_by(
    names: &DirTree,
    realms: &RealmTree,
    uses: &FileUses,
    next: Ino,
    client: u8,
    id: SnapId,
    request: &Request,
) -> Result<Option<Result<Change, Refusal>>, NoMemory>
    requires { IsOf (live names.now) realms.now }
    ensures { (family : Family) → StandsFor realms.now family
        → Answers result (asked (live names.now) family uses.now.handles next client id request.now) }
{
    match request {
        Request::Mkdir { path } => answer(mkdir(names, realms, next, id, path)),
        Request::Rmdir { path } => answer(rmdir(names, realms, path)),
        Request::Create { path, mode } => answer(create(names, next, path, *mode)),
        Request::Unlink { path } => answer(unlink(names, realms, path)),
        Request::Link { path, target } => answer(link(names, realms, path, target)),
        Request::Rename { path, target } => answer(rename(names, realms, path, target)),
        Request::Chmod { path, mode } => answer(chmod(names, path, *mode)),
        Request::Open {
            handle,
            path,
            writable,
        } => answer(open(names, uses, client, *handle, path, *writable)),
        Request::Close { handle } => answer(close(uses, client, *handle)),
        _ => Ok(None),
    }
}

/// What a client's request comes to, where a snapshot that it makes gets this id and a new inode this number: the change
/// that is made, or why it is refused, as it is said of a plain state that the tables show; None where it asks for no
/// change. Memory is wanted only for the names of a change.
pub fn plan_change(
    names: &DirTree,
    realms: &RealmTree,
    uses: &FileUses,
    next: Ino,
    client: u8,
    id: SnapId,
    request: &Request,
) -> Result<Option<Result<Change, Refusal>>, NoMemory>
    requires { IsOf (live names.now) realms.now }
    ensures planned { IfOk result (λ plan. (state : State) → Show names.now realms.now uses.now next state
        → plan ≡ change_asked state client id request.now) }
    ensures no_memory { OnErr result ((state : State) → Show names.now realms.now uses.now next state
        → is_named (change_asked state client id request.now) ≡ true) }
{
    plan_by(names, realms, uses, next, client, id, request)
}
