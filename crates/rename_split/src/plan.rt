// Plans of moves.
ghost use Rattle.std.specs.Prelude.{◌≡◌, true, false, Ok, IfOk, IfErr};
ghost use Rattle.snap_ids.specs.declared.id.Ino.{Ino as Inode};
ghost use Rattle.plain_tree.specs.Change.{entry};
ghost use Rattle.plain_tree.specs.Request.{new_entry};
ghost use Rattle.realm_story.specs.Family.{Family, is_root, is_in_global as is_in_family_global};
ghost use Rattle.snap_realm.specs.Tree.{StandsFor, is_in_global, is_there, is_under};
ghost use Rattle.rename_split.specs.Paths.{IsDirectory, last_name};
ghost use Rattle.rename_split.specs.Plans.{IsOf, IsRefused, live, link_of, move_of, opens, stray, stray_of};

use crate::error::MoveError;
use crate::paths::{entry_at, link_target, move_target, not_root, walk};
use dentry_tree::{DirTree, TreeError};
use snap_ids::{Ino, Kind, NOSNAP, Path, STRAY};
use snap_realm::RealmTree;

/// What becomes of an inode. Ceph developer guide, CephFS Snapshots, "Hard links" and "Rename".
#[derive(Clone, Copy, Debug, PartialEq, Eq)]
pub struct MovePlan {
    /// The inode.
    pub ino: Ino,
    /// The directory in which it loses a name, if it loses one.
    pub from_dir: Option<Ino>,
    /// The directory below which it stands then: one in which it gets a name, or the stray root. None where it stays.
    pub to_dir: Option<Ino>,
    /// Whether a realm begins at it then, and none did before.
    pub opens: bool,
    /// Whether it is in the global realm then, also where it was before.
    pub global: bool,
}

// What becomes of an inode's realm.
#[derive(Clone, Copy)]
struct Fate {
    opens: bool,
    global: bool,
}

// What becomes of the realm of an inode that is moved below a directory.
fn fate_of(realms: &RealmTree, ino: Ino, dir: Ino) -> Fate
    requires there { is_there realms.now ino ≡ true }
    requires no_root { is_in_global realms.now ino ≡ false → is_root ino ≡ false }
    requires dir { IsDirectory realms.now dir }
    requires apart { is_in_global realms.now ino ≡ false → is_under realms.now dir ino ≡ false }
    ensures opens { (family : Family) → StandsFor realms.now family → result.opens ≡ opens family ino dir }
    ensures global { (family : Family) → StandsFor realms.now family
        → result.global ≡ is_in_family_global family.members ino }
{
    let global = realms.is_in_global(ino);
    Fate {
        opens: !global && realms.opens(ino, dir),
        global,
    }
}

// Where a file goes that loses a name.
fn stray(global: bool) -> Option<Ino>
    ensures { result ≡ stray global }
{
    if global { None } else { Some(STRAY) }
}

/// The directory in which a path's last name can be new. Refused in this order: `BadName` for `/`; what the way to the
/// directory refuses; `NotDir` where it leads to a file; `BadName`; `Exists`. It takes no memory.
pub fn plan_new(tree: &DirTree, path: &Path) -> Result<Ino, MoveError>
    ensures planned { IfOk result (λ dir. (ino : Inode)
        → new_entry (live tree.now) ino path.now ≡ Ok (entry dir (last_name path.now) ino)) }
    ensures refused { IfErr result (λ error. (ino : Inode) → IsRefused error (new_entry (live tree.now) ino path.now)) }
{
    link_target(tree, path)
}

/// What a rename comes to. Refused in this order: `BadName` for `/` as either path; what the way to the source refuses;
/// what the way to the target's directory refuses; `IntoItself`; `BadName`; `Exists`. It takes no memory.
pub fn plan_move(
    tree: &DirTree,
    realms: &RealmTree,
    source: &Path,
    target: &Path,
) -> Result<MovePlan, MoveError>
    requires { IsOf (live tree.now) realms.now }
    ensures planned { IfOk result (λ plan. (family : Family) → StandsFor realms.now family
        → move_of (live tree.now) family source.now target.now ≡ Ok plan) }
    ensures refused { IfErr result (λ error. (family : Family) → StandsFor realms.now family
        → IsRefused error (move_of (live tree.now) family source.now target.now)) }
{
    not_root(source)?;
    not_root(target)?;
    let old = entry_at(tree, source)?;
    let dir = move_target(tree, realms, target, old.ino)?;
    let fate = fate_of(realms, old.ino, dir);
    Ok(MovePlan {
        ino: old.ino,
        from_dir: Some(old.dir),
        to_dir: Some(dir),
        opens: fate.opens,
        global: fate.global,
    })
}

/// What a link comes to. Refused in this order: `BadName` for `/` as either path; what the way to the source refuses;
/// `IsDir`; what the way to the target's directory refuses; `BadName`; `Exists`. It takes no memory.
pub fn plan_link(
    tree: &DirTree,
    _realms: &RealmTree,
    source: &Path,
    target: &Path,
) -> Result<MovePlan, MoveError>
    ensures planned { IfOk result (λ plan. link_of (live tree.now) source.now target.now ≡ Ok plan) }
    ensures refused { IfErr result (λ error. IsRefused error (link_of (live tree.now) source.now target.now)) }
{
    not_root(source)?;
    not_root(target)?;
    let ino = walk(tree, source.names())?;
    if tree.kind_of(ino) == Kind::Dir {
        return Err(MoveError::Tree(TreeError::IsDir));
    }
    let dir = link_target(tree, target)?;
    Ok(MovePlan {
        ino,
        from_dir: None,
        to_dir: Some(dir),
        opens: false,
        global: true,
    })
}

// What an unlink comes to.
fn plan_unlink(tree: &DirTree, realms: &RealmTree, path: &Path) -> Result<MovePlan, MoveError>
    requires { IsOf (live tree.now) realms.now }
    ensures planned { IfOk result (λ plan. (family : Family) → StandsFor realms.now family
        → stray_of (live tree.now) family path.now false ≡ Ok plan) }
    ensures refused { IfErr result (λ error. (family : Family) → StandsFor realms.now family
        → IsRefused error (stray_of (live tree.now) family path.now false)) }
{
    let old = entry_at(tree, path)?;
    match tree.kind_of(old.ino) {
        Kind::Dir => Err(MoveError::Tree(TreeError::IsDir)),
        Kind::File => {
            let fate = fate_of(realms, old.ino, STRAY);
            Ok(MovePlan {
                ino: old.ino,
                from_dir: Some(old.dir),
                to_dir: stray(fate.global),
                opens: fate.opens,
                global: fate.global,
            })
        }
    }
}

// What a rmdir comes to.
fn plan_rmdir(tree: &DirTree, realms: &RealmTree, path: &Path) -> Result<MovePlan, MoveError>
    ensures planned { IfOk result (λ plan. (family : Family) → StandsFor realms.now family
        → stray_of (live tree.now) family path.now true ≡ Ok plan) }
    ensures refused { IfErr result (λ error. (family : Family) → StandsFor realms.now family
        → IsRefused error (stray_of (live tree.now) family path.now true)) }
{
    let old = entry_at(tree, path)?;
    if tree.kind_of(old.ino) == Kind::File {
        return Err(MoveError::Tree(TreeError::NotDir));
    }
    if realms.has_live(old.ino) {
        return Err(MoveError::HasSnapshots);
    }
    if tree.has_entries(old.ino, NOSNAP) {
        return Err(MoveError::Tree(TreeError::NotEmpty));
    }
    Ok(MovePlan {
        ino: old.ino,
        from_dir: Some(old.dir),
        to_dir: None,
        opens: false,
        global: false,
    })
}

/// What a rmdir comes to where `is_rmdir` is true, else what an unlink does: a file that isn't in the global realm loses
/// its last name, and goes to the stray root. Refused in this order: `BadName` for `/`; what the way refuses; then of a
/// rmdir `NotDir`, `HasSnapshots` and `NotEmpty`, of an unlink `IsDir`. It takes no memory.
pub fn plan_stray(
    tree: &DirTree,
    realms: &RealmTree,
    path: &Path,
    is_rmdir: bool,
) -> Result<MovePlan, MoveError>
    requires { IsOf (live tree.now) realms.now }
    ensures planned { IfOk result (λ plan. (family : Family) → StandsFor realms.now family
        → stray_of (live tree.now) family path.now is_rmdir ≡ Ok plan) }
    ensures refused { IfErr result (λ error. (family : Family) → StandsFor realms.now family
        → IsRefused error (stray_of (live tree.now) family path.now is_rmdir)) }
{
    if is_rmdir {
        plan_rmdir(tree, realms, path)
    } else {
        plan_unlink(tree, realms, path)
    }
}
