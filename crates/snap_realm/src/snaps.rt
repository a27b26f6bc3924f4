// The snapshots that the store still keeps.
ghost use Rattle.std.specs.Prelude.{◌≡◌, ◌&&◌, length, filter, find, map, option_map};
ghost use Rattle.std.specs.List.{list_any};
ghost use Rattle.realm_story.specs.Family.{same_ino};
ghost use Rattle.realm_story.specs.declared.records.Snap.{Snap as Snapshot};
ghost use Rattle.snap_realm.specs.Refusals.{refusal_kept, has_id, name_by};
ghost use Rattle.snap_realm.specs.Tree.{has_name};
ghost use Rattle.snap_realm.specs.Walks.{unnamed, id_by};

use crate::error::RealmError;
use realm_story::Snap;
use snap_ids::{Ino, Name, SnapId};

// Whether a snapshot is the live one of a directory that has a name.
fn has_name(snap: &Snap, dir: Ino, name: &Name) -> bool
    ensures { result ≡ has_name dir name.now snap.now }
{
    snap.live && (snap.root.0 == dir.0 && snap.name.as_bytes() == name.as_bytes())
}

// Whether a live snapshot of a directory has a name.
fn is_taken(snaps: &[Snap], dir: Ino, name: &Name) -> bool
    ensures { result ≡ list_any (has_name dir name.now) snaps.now }
{
    snaps.iter().any(|snap| has_name(snap, dir, name))
}

// How many live snapshots a directory has.
fn own_count(snaps: &[Snap], dir: Ino) -> usize
    ensures { result ≡ length (filter (λ (snap : Snapshot). snap.live && same_ino snap.root dir) snaps.now) }
{
    snaps
        .iter()
        .filter(|snap| snap.live && snap.root.0 == dir.0)
        .count()
}

// How many snapshots are live.
fn live_count(snaps: &[Snap]) -> usize
    ensures { result ≡ length (filter (λ (snap : Snapshot). snap.live) snaps.now) }
{
    snaps.iter().filter(|snap| snap.live).count()
}

/// Why a snapshot of a directory with this name isn't made, if it isn't.
pub(crate) fn refusal(snaps: &[Snap], dir: Ino, name: &Name) -> Option<RealmError>
    ensures { result ≡ refusal_kept dir name.now snaps.now }
{
    if is_taken(snaps, dir, name) {
        return Some(RealmError::SnapExists);
    }
    if 100 <= own_count(snaps, dir) {
        return Some(RealmError::TooManySnaps);
    }
    if 128 <= live_count(snaps) {
        return Some(RealmError::TooManyLive);
    }
    None
}

/// The id of the live snapshot of a directory that has a name.
pub(crate) fn id_named(snaps: &[Snap], dir: Ino, name: &Name) -> Option<SnapId>
    ensures { result ≡ id_by (find (has_name dir name.now) snaps.now) }
{
    let snap = snaps.iter().find(|snap| has_name(snap, dir, name))?;
    Some(snap.id)
}

// Whether a snapshot is the live one that has an id.
fn has_id(snap: &Snap, id: SnapId) -> bool
    ensures { result ≡ has_id id snap.now }
{
    snap.live && snap.id.0 == id.0
}

/// The directory and the name of the live snapshot that has an id.
pub(crate) fn name_with(snaps: &[Snap], id: SnapId) -> Option<(Ino, &Name)>
    ensures { option_map (λ named. (named.0, named.1.now)) result ≡ name_by (find (has_id id) snaps.now) }
{
    let snap = snaps.iter().find(|snap| has_id(snap, id))?;
    Some((snap.root, &snap.name))
}

// A snapshot loses its name, where it is the live one of a directory that has it.
fn unname(snap: &mut Snap, dir: Ino, name: &Name)
    ensures { snap.new ≡ unnamed dir name.now snap.old }
{
    if has_name(snap, dir, name) {
        snap.live = false;
    }
}

/// The live snapshot of a directory that has a name loses it.
pub(crate) fn unname_all(snaps: &mut Vec<Snap>, dir: Ino, name: &Name)
    ensures { snaps.new.items ≡ map (unnamed dir name.now) snaps.old.items }
{
    for snap in snaps.iter_mut() {
        unname(snap, dir, name);
    }
}
