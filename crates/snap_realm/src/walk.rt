// The way up from an inode by the parents, and what the realms on it give.
ghost use Rattle.std.specs.Prelude.{◌≡◌, ◌&&◌, not, filter, ◌++◌, List, ◌<◌, ◌==◌, ℕ, Bool, if◌then◌else◌, Some, None, length, IfOk, OnOk, OnErr};
ghost use Rattle.std.specs.Option.{option_copied, option_map};
ghost use Rattle.std.specs.BTreeMap.{get};
ghost use Rattle.snap_ids.specs.Context.{is_listed};
ghost use Rattle.snap_ids.specs.declared.id.TheConstants.{GLOBAL};
ghost use Rattle.std.specs.List.{list_any};
ghost use Rattle.realm_story.specs.Family.{is_on, is_root, same_ino};
ghost use Rattle.realm_story.specs.declared.records.Node.{Node as Item};
ghost use Rattle.realm_story.specs.declared.records.Snap.{Snap as Snapshot};
ghost use Rattle.realm_story.specs.Records.{parent_by, birth_by, realm_by, is_realm, is_node, up, nearest_on, lists, seq_on, infos, own_of, kept_of, ids_of};
ghost use Rattle.realm_story.specs.Records.{lists_by, seq_by, info_by};
ghost use Rattle.snap_ids.specs.declared.values.RealmInfo.{RealmInfo as Info};
ghost use Rattle.snap_realm.specs.Tree.{node_at, is_child};
ghost use Rattle.snap_realm.specs.Walks.{or_above, most, hung, opened, snapped, snapped_at};

use realm_story::{Node, Realm, Snap};
use snap_ids::{FIRST_SNAP, GLOBAL, Ids, Ino, RealmInfo, SnapId};
use std::alloc::{AllocError, AllocFailed, Global};
use std::collections::BTreeMap;

/// The inodes by their numbers.
pub(crate) type Nodes = BTreeMap<u64, Node>;

/// The inode above another.
pub(crate) fn parent(nodes: &Nodes, ino: Ino) -> Option<Ino>
    ensures { result ≡ parent_by (node_at nodes.now.entries ino.0) }
{
    nodes.get(&ino.0)?.parent
}

/// The realm that begins at an inode.
pub(crate) fn realm(nodes: &Nodes, ino: Ino) -> Option<&Realm>
    ensures { option_copied result ≡ realm_by (node_at nodes.now.entries ino.0) }
{
    nodes.get(&ino.0)?.realm.as_ref()
}

/// Whether a realm begins at an inode.
pub(crate) fn begins(nodes: &Nodes, ino: Ino) -> bool
    ensures { result ≡ is_realm (realm_by (node_at nodes.now.entries ino.0)) }
{
    match nodes.get(&ino.0) {
        Some(node) => node.realm.is_some(),
        None => false,
    }
}

/// The first id for which an inode is valid.
pub(crate) fn birth(nodes: &Nodes, ino: Ino) -> SnapId
    ensures { result ≡ birth_by (node_at nodes.now.entries ino.0) }
{
    match nodes.get(&ino.0) {
        Some(node) => node.birth,
        None => FIRST_SNAP,
    }
}

/// Whether an inode is another one or below it.
pub(crate) fn is_under(nodes: &Nodes, ino: Ino, top: Ino) -> bool
    ensures { result ≡ is_on top (up (length nodes.now.entries) (node_at nodes.now.entries) ino) }
{
    let mut next = Some(ino);
    for _ in 0..nodes.len() {
        let Some(here) = next else {
            return false;
        };
        if top.0 == here.0 {
            return true;
        }
        next = parent(nodes, here);
    }
    false
}

// Whether an inode is one of the three roots.
fn is_root(ino: Ino) -> bool
    ensures { result ≡ is_root ino }
{
    0 < ino.0 && ino.0 <= GLOBAL.0
}

// Whether a node stands right below an inode.
fn is_child(node: &Node, ino: Ino) -> bool
    ensures { result ≡ is_child ino node.now.parent }
{
    match node.parent {
        Some(parent) => parent.0 == ino.0,
        None => false,
    }
}

// Whether an inode has one below it.
fn has_child(nodes: &Nodes, ino: Ino) -> bool
    ensures { result ≡ list_any (λ (entry : ℕ × Item). is_child ino entry.1.parent) nodes.now.entries }
{
    nodes.iter().any(|(_, node)| is_child(node, ino))
}

/// Whether an inode is no root, and the parent of none.
pub(crate) fn is_leaf(nodes: &Nodes, ino: Ino) -> bool
    ensures { result ≡ (not (is_root ino)
        && not (list_any (λ (entry : ℕ × Item). is_child ino entry.1.parent) nodes.now.entries)) }
{
    !is_root(ino) && !has_child(nodes, ino)
}

/// The nearest inode on the way up at which a realm begins.
pub(crate) fn nearest(nodes: &Nodes, ino: Ino) -> Ino
    ensures { result ≡ nearest_on (λ y. is_realm (realm_by (node_at nodes.now.entries y.0))) ino
        (up (length nodes.now.entries) (node_at nodes.now.entries) ino) }
{
    let mut last = ino;
    let mut next = Some(ino);
    for _ in 0..nodes.len() {
        let Some(here) = next else {
            return last;
        };
        if begins(nodes, here) {
            return here;
        }
        last = here;
        next = parent(nodes, here);
    }
    last
}

// Whether an id is one of some.
fn is_listed(ids: &[SnapId], id: SnapId) -> bool
    ensures { result ≡ is_listed id ids.now }
{
    ids.iter().any(|other| other.0 == id.0)
}

// Whether a realm lists a snapshot of a directory, where it decides that by itself.
fn decided(realm: Option<&Realm>, here: Ino, root: Ino, id: SnapId) -> Option<bool>
    ensures { (above : Bool) → or_above result above ≡ lists_by (option_copied realm.entry) here root id above }
{
    let realm = realm?;
    if root.0 == here.0 || is_listed(realm.past.as_slice(), id) {
        return Some(true);
    }
    if realm.since.0 <= id.0 {
        None
    } else {
        Some(false)
    }
}

/// Whether the realms of an inode list a snapshot of a directory.
pub(crate) fn lists(nodes: &Nodes, ino: Ino, root: Ino, id: SnapId) -> bool
    ensures { result ≡ lists (node_at nodes.now.entries)
        (up (length nodes.now.entries) (node_at nodes.now.entries) ino) root id }
{
    let mut next = Some(ino);
    for _ in 0..nodes.len() {
        let Some(here) = next else {
            return false;
        };
        if let Some(answer) = decided(realm(nodes, here), here, root, id) {
            return answer;
        }
        next = parent(nodes, here);
    }
    false
}

// The greatest sequence id so far, and the bound from which on those above count, after one more realm.
fn raised(realm: Option<&Realm>, so_far: u64, bound: u64) -> (u64, u64)
    ensures { (n : ℕ) → most result.0 result.1 n ≡ most so_far bound (seq_by (option_copied realm.entry) n) }
{
    match realm {
        Some(realm) => {
            let seq = if bound <= realm.seq.0 { realm.seq.0 } else { 0 };
            (so_far.max(seq), bound.max(realm.since.0))
        }
        None => (so_far, bound),
    }
}

/// The greatest sequence id that the realms of an inode give.
pub(crate) fn seq(nodes: &Nodes, ino: Ino) -> u64
    ensures { result ≡ seq_on (node_at nodes.now.entries)
        (up (length nodes.now.entries) (node_at nodes.now.entries) ino) }
{
    let mut seen = (0, 0);
    let mut next = Some(ino);
    for _ in 0..nodes.len() {
        let Some(here) = next else {
            return seen.0;
        };
        seen = raised(realm(nodes, here), seen.0, seen.1);
        next = parent(nodes, here);
    }
    seen.0
}

/// The ids of all snapshots.
pub(crate) fn ids_of(alloc: Global, snaps: &[Snap]) -> Result<Vec<SnapId>, AllocError>
    ensures { IfOk result (λ ids. ids.items ≡ ids_of snaps.now) }
{
    snaps.iter().map(|snap| snap.id).collect(alloc)
}

// The ids of a directory's own snapshots.
fn own_of(alloc: Global, snaps: &[Snap], dir: Ino) -> Result<Vec<SnapId>, AllocError>
    ensures { IfOk result (λ ids. ids.items ≡ own_of snaps.now dir) }
{
    snaps
        .iter()
        .filter(|snap| snap.root.0 == dir.0)
        .map(|snap| snap.id)
        .collect(alloc)
}

// Whether an id is that of a snapshot.
fn is_kept(snaps: &[Snap], id: SnapId) -> bool
    ensures { result ≡ is_listed id (ids_of snaps.now) }
{
    snaps
        .iter()
        .map(|snap| snap.id)
        .any(|other| other.0 == id.0)
}

// Those of some ids that the store still keeps.
fn kept_of(alloc: Global, snaps: &[Snap], ids: &[SnapId]) -> Result<Vec<SnapId>, AllocError>
    ensures { IfOk result (λ kept. kept.items ≡ kept_of snaps.now ids.now) }
{
    ids.iter()
        .copied()
        .filter(|id| is_kept(snaps, *id))
        .collect(alloc)
}

// Puts the realm of an inode, if there is one, behind others.
fn push_info(
    alloc: Global,
    infos: &mut Vec<RealmInfo>,
    realm: Option<&Realm>,
    ino: Ino,
    snaps: &[Snap],
) -> Result<(), AllocError>
    ensures { OnOk result ((above : List Info) → infos.new.items ++ above
        ≡ infos.old.items ++ info_by (option_copied realm.entry) ino snaps.now above) }
{
    if let Some(realm) = realm {
        let own = Ids::from_vec(own_of(alloc, snaps, ino)?);
        let past = Ids::from_vec(kept_of(alloc, snaps, realm.past.as_slice())?);
        let info = RealmInfo {
            ino,
            seq: realm.seq,
            since: realm.since,
            own,
            past,
        };
        infos.push(info)?;
    }
    Ok(())
}

/// The realms that contain an inode, the nearest first, with the ids that the store still keeps.
pub(crate) fn infos(
    alloc: Global,
    nodes: &Nodes,
    snaps: &[Snap],
    ino: Ino,
) -> Result<Vec<RealmInfo>, AllocError>
    ensures { IfOk result (λ made. made.items ≡ infos (node_at nodes.now.entries) snaps.now
        (up (length nodes.now.entries) (node_at nodes.now.entries) ino)) }
{
    let mut infos = Vec::new(alloc);
    let mut next = Some(ino);
    for _ in 0..nodes.len() {
        let Some(here) = next else {
            return Ok(infos);
        };
        push_info(alloc, &mut infos, realm(nodes, here), here, snaps)?;
        next = parent(nodes, here);
    }
    Ok(infos)
}

/// Puts an inode below another one.
pub(crate) fn hang(nodes: &mut Nodes, ino: Ino, parent: Ino)
    ensures { (k : ℕ) → node_at nodes.new.entries k ≡ option_map (hung ino k parent) (node_at nodes.old.entries k) }
{
    if let Some(node) = nodes.get_mut(&ino.0) {
        node.parent = Some(parent);
    }
}

/// Lets a realm begin at an inode.
pub(crate) fn open(nodes: &mut Nodes, ino: Ino, realm: Realm)
    ensures { (k : ℕ) → node_at nodes.new.entries k ≡ option_map (opened ino k realm) (node_at nodes.old.entries k) }
{
    if let Some(node) = nodes.get_mut(&ino.0) {
        node.realm = Some(realm);
    }
}

/// Puts the record of an inode in its place.
pub(crate) fn put(nodes: &mut Nodes, ino: Ino, node: Node) -> Result<(), AllocFailed<(u64, Node)>>
    ensures ok { OnOk result ((k : ℕ) → node_at nodes.new.entries k
        ≡ (if ino.0 == k then Some node else node_at nodes.old.entries k)) }
    ensures err { OnErr result (nodes.new.entries ≡ nodes.old.entries) }
{
    nodes.insert(ino.0, node)?;
    Ok(())
}

/// Takes the record of an inode away.
pub(crate) fn take(nodes: &mut Nodes, ino: Ino)
    ensures { (k : ℕ) → node_at nodes.new.entries k ≡ (if ino.0 == k then None else node_at nodes.old.entries k) }
{
    nodes.remove(&ino.0);
}

// A realm once it has a new snapshot.
fn with_snap(alloc: Global, realm: Option<Realm>, id: SnapId) -> Realm
    ensures { result ≡ snapped id realm }
{
    match realm {
        Some(realm) => Realm {
            seq: id,
            since: realm.since,
            past: realm.past,
        },
        None => Realm {
            seq: id,
            since: SnapId(0),
            past: Ids::new(alloc),
        },
    }
}

/// Lets the realm of a directory have a new snapshot.
pub(crate) fn snap(nodes: &mut Nodes, alloc: Global, dir: Ino, id: SnapId)
    ensures { (k : ℕ) → node_at nodes.new.entries k ≡ option_map (snapped_at dir k id) (node_at nodes.old.entries k) }
{
    if let Some(node) = nodes.get_mut(&dir.0) {
        node.realm = Some(with_snap(alloc, node.realm.take(), id));
    }
}

// Whether a snapshot is one of another directory, and the realms of an inode list it.
fn is_left(nodes: &Nodes, ino: Ino, snap: &Snap) -> bool
    ensures { result ≡ (lists (node_at nodes.now.entries) (up (length nodes.now.entries) (node_at nodes.now.entries) ino)
        snap.now.root snap.now.id && not (same_ino snap.now.root ino)) }
{
    lists(nodes, ino, snap.root, snap.id) && snap.root.0 != ino.0
}

/// The ids of other directories' snapshots that the realms of an inode list.
pub(crate) fn left(
    alloc: Global,
    nodes: &Nodes,
    snaps: &[Snap],
    ino: Ino,
) -> Result<Vec<SnapId>, AllocError>
    ensures { IfOk result (λ ids. ids.items ≡ ids_of (filter (λ (snap : Snapshot).
        lists (node_at nodes.now.entries) (up (length nodes.now.entries) (node_at nodes.now.entries) ino) snap.root snap.id
        && not (same_ino snap.root ino)) snaps.now)) }
{
    snaps
        .iter()
        .filter(|snap| is_left(nodes, ino, snap))
        .map(|snap| snap.id)
        .collect(alloc)
}

/// A copy of some ids.
pub(crate) fn copied(alloc: Global, ids: &[SnapId]) -> Result<Vec<SnapId>, AllocError>
    ensures { IfOk result (λ copy. copy.items ≡ ids.now) }
{
    ids.iter().copied().collect(alloc)
}
