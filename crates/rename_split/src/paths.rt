// Where paths lead in a tree of entries, as it is now.
ghost use Rattle.std.specs.Prelude.{◌≡◌, ◌<◌, ◌∷◌, [], length, false, Some, Ok, IfOk, IfErr, OnOk};
ghost use Rattle.snap_ids.specs.declared.id.Ino.{Ino as Inode};
ghost use Rattle.plain_tree.specs.State.{lookup};
ghost use Rattle.plain_tree.specs.Change.{entry};
ghost use Rattle.plain_tree.specs.Walk.{walk};
ghost use Rattle.plain_tree.specs.Request.{and_then, entry_at, in_directory, in_parent, moved_name, new_entry, new_name, walk_live};
ghost use Rattle.snap_realm.specs.Tree.{is_under};
ghost use Rattle.rename_split.specs.Plans.{IsOf, IsRefused, live};
ghost use Rattle.rename_split.specs.Paths.{IsDirectory, last_name};

use crate::error::MoveError;
use dentry_tree::{DirTree, TreeError};
use snap_ids::{Ino, Kind, NOSNAP, Name, Path, ROOT};
use snap_realm::RealmTree;

// The entry of a path's last name: the directory, and the inode there.
#[derive(Clone, Copy)]
pub(crate) struct Found {
    pub dir: Ino,
    pub ino: Ino,
}

// `/` has no last name.
pub(crate) fn not_root(path: &Path) -> Result<(), MoveError>
    ensures named { OnOk result (0 < length path.now) }
    ensures refused { IfErr result (λ error. (error ≡ MoveError.BadName) × (length path.now ≡ 0)) }
{
    if path.names().is_empty() {
        return Err(MoveError::BadName);
    }
    Ok(())
}

// The inode at the end of some names from the root.
pub(crate) fn walk(tree: &DirTree, names: &[Name]) -> Result<Ino, MoveError>
    ensures found { IfOk result (λ ino. walk_live (live tree.now) names.now ≡ Ok ino) }
    ensures refused { IfErr result (λ error. IsRefused error (walk_live (live tree.now) names.now)) }
{
    match tree.walk_names(ROOT, names, NOSNAP) {
        Ok(ino) => Ok(ino),
        Err(error) => Err(MoveError::Tree(error)),
    }
}

// The inode that a name has in a directory.
fn step(tree: &DirTree, dir: Ino, name: &Name) -> Result<Ino, MoveError>
    ensures found { IfOk result (λ ino. walk (live tree.now).kind (live tree.now).entries dir (name.now ∷ []) ≡ Ok ino) }
    ensures named { IfOk result (λ ino. lookup (live tree.now).entries dir name.now ≡ Some ino) }
    ensures refused { IfErr result (λ error.
        IsRefused error (walk (live tree.now).kind (live tree.now).entries dir (name.now ∷ []))) }
{
    if tree.kind_of(dir) == Kind::File {
        return Err(MoveError::Tree(TreeError::NotDir));
    }
    match tree.at(dir, name, NOSNAP) {
        Some(ino) => Ok(ino),
        None => Err(MoveError::Tree(TreeError::NoEntry)),
    }
}

// The entry of a path's last name.
pub(crate) fn entry_at(tree: &DirTree, path: &Path) -> Result<Found, MoveError>
    ensures found { IfOk result (λ found.
        entry_at (live tree.now) path.now ≡ Ok (entry found.dir (last_name path.now) found.ino)) }
    ensures named { IfOk result (λ found. lookup (live tree.now).entries found.dir (last_name path.now) ≡ Some found.ino) }
    ensures refused { IfErr result (λ error. IsRefused error (entry_at (live tree.now) path.now)) }
{
    let Some((name, front)) = path.names().split_last() else {
        return Err(MoveError::BadName);
    };
    let dir = walk(tree, front)?;
    let ino = step(tree, dir, name)?;
    Ok(Found { dir, ino })
}

// The inode at the end of some names from the root, which is a directory.
fn directory(tree: &DirTree, names: &[Name]) -> Result<Ino, MoveError>
    ensures found { IfOk result (λ dir. walk_live (live tree.now) names.now ≡ Ok dir) }
    ensures is_one { IfOk result (λ dir. in_directory ((live tree.now).kind dir) (Ok dir) ≡ Ok dir) }
    ensures refused { IfErr result (λ error.
        IsRefused error (and_then (walk_live (live tree.now) names.now) (λ dir. in_directory ((live tree.now).kind dir) (Ok dir)))) }
{
    let dir = walk(tree, names)?;
    if tree.kind_of(dir) == Kind::File {
        return Err(MoveError::Tree(TreeError::NotDir));
    }
    Ok(dir)
}

// Whether a name can be new in a directory.
fn free(tree: &DirTree, dir: Ino, name: &Name) -> Result<(), MoveError>
    ensures new { OnOk result ((ino : Inode) → new_name (live tree.now) ino name.now dir ≡ Ok (entry dir name.now ino)) }
    ensures refused { IfErr result (λ error. (ino : Inode) → IsRefused error (new_name (live tree.now) ino name.now dir)) }
{
    if !name.is_new() {
        return Err(MoveError::BadName);
    }
    if tree.at(dir, name, NOSNAP).is_some() {
        return Err(MoveError::Tree(TreeError::Exists));
    }
    Ok(())
}

// The directory in which a path's last name can be new.
pub(crate) fn link_target(tree: &DirTree, path: &Path) -> Result<Ino, MoveError>
    ensures found { IfOk result (λ dir. (ino : Inode)
        → new_entry (live tree.now) ino path.now ≡ Ok (entry dir (last_name path.now) ino)) }
    ensures refused { IfErr result (λ error. (ino : Inode) → IsRefused error (new_entry (live tree.now) ino path.now)) }
{
    let Some((name, front)) = path.names().split_last() else {
        return Err(MoveError::BadName);
    };
    let dir = directory(tree, front)?;
    free(tree, dir, name)?;
    Ok(dir)
}

// The same for an inode that is moved there: it is neither the directory nor above it.
pub(crate) fn move_target(
    tree: &DirTree,
    realms: &RealmTree,
    path: &Path,
    ino: Ino,
) -> Result<Ino, MoveError>
    requires { IsOf (live tree.now) realms.now }
    ensures found { IfOk result (λ dir. in_parent (live tree.now) path.now (moved_name (live tree.now) ino)
        ≡ Ok (entry dir (last_name path.now) ino)) }
    ensures apart { IfOk result (λ dir. is_under realms.now dir ino ≡ false) }
    ensures inside { IfOk result (λ dir. IsDirectory realms.now dir) }
    ensures refused { IfErr result (λ error.
        IsRefused error (in_parent (live tree.now) path.now (moved_name (live tree.now) ino))) }
{
    let Some((name, front)) = path.names().split_last() else {
        return Err(MoveError::BadName);
    };
    let dir = directory(tree, front)?;
    if realms.is_under(dir, ino) {
        return Err(MoveError::IntoItself);
    }
    free(tree, dir, name)?;
    Ok(dir)
}
