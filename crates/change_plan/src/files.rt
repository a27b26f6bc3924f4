// Changes of files.
ghost use Rattle.std.specs.Prelude.{◌≡◌, is_some};
ghost use Rattle.snap_ids.specs.Path.{place_of};
ghost use Rattle.plain_tree.specs.Change.{open_of};
ghost use Rattle.plain_tree.specs.Request.{on_live};
ghost use Rattle.rename_split.specs.Plans.{live};
ghost use Rattle.change_plan.specs.Causes.{Plans};
ghost use Rattle.change_plan.specs.Asked as plans;

use crate::cause::Cause;
use crate::names::{is_live, walk};
use dentry_tree::DirTree;
use file_uses::FileUses;
use plain_types::{Change, Refusal};
use snap_ids::{Kind, Path};

// Whether a client has a handle.
fn is_open(uses: &FileUses, client: u8, handle: u8) -> bool
    ensures { result ≡ is_some (open_of uses.now.handles client handle) }
{
    uses.opened(client, handle).is_some()
}

// Another mode.
pub(crate) fn chmod(names: &DirTree, path: &Path, mode: u16) -> Result<Change, Cause>
    ensures { Plans result (on_live (place_of path.now) (plans.with_mode (live names.now) mode)) }
{
    if !is_live(path) {
        return Err(Cause::Refused(Refusal::ReadOnly));
    }
    match walk(names, path.names()) {
        Ok(ino) => Ok(Change::Chmod { ino, mode }),
        Err(reason) => Err(Cause::Refused(reason)),
    }
}

// A file that is opened, at a live path.
fn open_file(
    names: &DirTree,
    uses: &FileUses,
    client: u8,
    handle: u8,
    path: &Path,
    writable: bool,
) -> Result<Change, Cause>
    ensures { Plans result (plans.opened (live names.now) uses.now.handles client handle writable path.now) }
{
    if is_open(uses, client, handle) {
        return Err(Cause::Refused(Refusal::BadHandle));
    }
    match walk(names, path.names()) {
        Ok(ino) => match names.kind_of(ino) {
            Kind::Dir => Err(Cause::Refused(Refusal::IsDir)),
            Kind::File => Ok(Change::OpenFile {
                handle,
                ino,
                writable,
            }),
        },
        Err(reason) => Err(Cause::Refused(reason)),
    }
}

// A file that is opened.
pub(crate) fn open(
    names: &DirTree,
    uses: &FileUses,
    client: u8,
    handle: u8,
    path: &Path,
    writable: bool,
) -> Result<Change, Cause>
    ensures { Plans result
        (on_live (place_of path.now) (plans.opened (live names.now) uses.now.handles client handle writable)) }
{
    if !is_live(path) {
        return Err(Cause::Refused(Refusal::ReadOnly));
    }
    open_file(names, uses, client, handle, path, writable)
}

// A handle that is closed.
pub(crate) fn close(uses: &FileUses, client: u8, handle: u8) -> Result<Change, Cause>
    ensures { Plans result (plans.closed uses.now.handles client handle) }
{
    if is_open(uses, client, handle) {
        Ok(Change::CloseFile { handle })
    } else {
        Err(Cause::Refused(Refusal::BadHandle))
    }
}
