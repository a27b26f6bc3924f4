// The tree of realms.
ghost use Rattle.std.specs.Prelude.{◌≡◌, [], None, Some, Err, option_map, ◌↔◌, ◌≤◌, ◌<◌, ◌==◌, ◌&&◌, not, true, false, length, map, filter, find, fold, bytes_eq, IsTrue, IfOk, IfErr, OnOk, OnErr, IsErrOf};
ghost use Rattle.std.specs.List.{list_any};
ghost use Rattle.snap_ids.specs.Context.{falls};
ghost use Rattle.snap_ids.specs.Name.{is_new_snap};
ghost use Rattle.snap_ids.specs.Traces.{from_id, context_of as context_of_trace};
ghost use Rattle.snap_ids.specs.declared.id.TheConstants.{STRAY, NOSNAP, FIRST_SNAP};
ghost use Rattle.realm_story.specs.declared.records.Snap.{Snap as Snapshot};
ghost use Rattle.realm_story.specs.Records.{parent_by, seq_on};
ghost use Rattle.realm_story.specs.Family.{Family, Made, same_ino, start, is_root};
ghost use Rattle.realm_story.specs.Family as story;
ghost use Rattle.snap_ids.specs.declared.values.RealmInfo.{RealmInfo as Info};
ghost use Rattle.snap_realm.specs.Realms.{realms_of};
ghost use Rattle.snap_realm.specs.Tree.{StandsFor, node_at, is_there, is_in_global, is_under, is_leaf, is_live, is_live_of, IsLeaf, has_name, begins_at};
ghost use Rattle.snap_realm.specs.Tree as records;
ghost use Rattle.snap_realm.specs.Walks.{id_by};
ghost use Rattle.snap_realm.specs.Names.{id_in, listed, name_of, is_shown, with_shown};
ghost use Rattle.snap_realm.specs.Refusals.{refusal, refusal_kept, id_named, has_id, name_by, name_with};
ghost use Rattle.snap_realm.specs.declared.error.RealmError.{RealmError as Refused};

use crate::error::RealmError;
use crate::names::{id_shown, shown_names};
use crate::snaps::{id_named, name_with, refusal, unname_all};
use crate::walk::{
    Nodes, begins, birth, copied, hang, ids_of, infos, is_leaf, is_under, left, nearest, open,
    parent, put, seq, snap, take,
};
use realm_story::{Node, Realm, Snap};
use snap_ids::{
    Entries, FIRST_SNAP, GLOBAL, Ids, Ino, Kind, NOSNAP, Name, ROOT, RealmInfo, STRAY, SnapContext,
    SnapId, Trace, context_of,
};
use std::alloc::Global;
use std::collections::BTreeMap;
use std::marker::Model;

/// The tree of realms: where each inode stands, which snapshots the store still keeps, and which realms begin where.
/// Contracts see the records, and say what each call means by the plain stories that the records stand for: a new tree
/// stands for the story in which nothing was called, and each call for the story with that call. Ceph developer guide,
/// CephFS Snapshots.
#[derive(Drop)]
pub struct RealmTree {
    alloc: Global,
    nodes: Nodes,
    snaps: Vec<Snap>,
    applied: SnapId,
}

impl Model for RealmTree {
    ghost use Rattle.std.specs.Prelude.{◌<◌};
    ghost use Rattle.snap_realm.specs.Tree.{Tree};

    ghost Value = { Tree };

    ghost view = { λ tree. record { nodes = tree.nodes.entries; snaps = tree.snaps.items; applied = tree.applied } };

    ghost invariant = { λ tree. tree.applied.0 < 4611686018427387904 };
}

// The record of a root.
fn root(alloc: Global) -> Node
    ensures { result ≡ record { parent = None; birth = FIRST_SNAP; realm = Some (record { seq = record { 0 = 1 }; since = record { 0 = 0 }; past = [] }) } }
{
    let realm = Realm {
        seq: SnapId(1),
        since: SnapId(0),
        past: Ids::new(alloc),
    };
    Node {
        parent: None,
        birth: FIRST_SNAP,
        realm: Some(realm),
    }
}

// A first id, where it is one that a tree gives.
fn capped(birth: SnapId) -> SnapId
    ensures below { result.0 < NOSNAP.0 }
    ensures same { birth.0 ≤ 4611686018427387904 → result ≡ birth }
{
    if birth.0 <= 4611686018427387904 {
        birth
    } else {
        FIRST_SNAP
    }
}

impl RealmTree {
    /// The three roots, each with a realm, and no snapshot. It fails only with `NoMemory`.
    pub fn new(alloc: Global) -> Result<RealmTree, RealmError>
        ensures story { IfOk result (λ tree. StandsFor tree start) }
        ensures no_memory { IfErr result (λ error. error ≡ RealmError.NoMemory) }
    {
        let mut nodes = BTreeMap::new(alloc);
        put(&mut nodes, ROOT, root(alloc))?;
        put(&mut nodes, STRAY, root(alloc))?;
        put(&mut nodes, GLOBAL, root(alloc))?;
        Ok(RealmTree {
            alloc,
            nodes,
            snaps: Vec::new(alloc),
            applied: SnapId(1),
        })
    }

    /// The id of the last snapshot that was made, at first 1.
    pub fn applied(&self) -> SnapId
        ensures records { result ≡ self.now.applied }
        ensures story { (family : Family) → StandsFor self.now family → result ≡ family.applied }
    {
        self.applied
    }

    /// Whether an inode is there. The three roots always are.
    pub fn has(&self, ino: Ino) -> bool
        ensures { result ≡ is_there self.now ino }
    {
        self.nodes.contains_key(&ino.0)
    }

    /// Whether an inode is another one or below it.
    pub fn is_under(&self, ino: Ino, top: Ino) -> bool
        ensures { result ≡ is_under self.now ino top }
    {
        is_under(&self.nodes, ino, top)
    }

    /// Whether an inode is in the global realm: a file that ever had two names, and that realm's root.
    pub fn is_in_global(&self, ino: Ino) -> bool
        ensures { result ≡ is_in_global self.now ino }
    {
        is_under(&self.nodes, ino, GLOBAL)
    }

    /// Whether an inode is none of the three roots, and none is below it. It looks at all inodes.
    pub fn is_leaf(&self, ino: Ino) -> bool
        ensures exactly { result ≡ is_leaf self.now ino }
        ensures leaf { IsTrue result → IsLeaf self.now ino }
    {
        is_leaf(&self.nodes, ino)
    }

    /// Whether a snapshot with a name has an id.
    pub fn is_live(&self, id: SnapId) -> bool
        ensures { result ≡ is_live self.now id }
    {
        self.snaps.iter().any(|snap| snap.live && snap.id.0 == id.0)
    }

    // The inode at which the realm of another begins, by the records.
    fn realm_at(&self, ino: Ino) -> Ino
        ensures { result ≡ records.realm_of self.now ino }
    {
        if is_under(&self.nodes, ino, GLOBAL) {
            return GLOBAL;
        }
        nearest(&self.nodes, ino)
    }

    /// The inode at which the realm that contains another one begins.
    pub fn realm_of(&self, ino: Ino) -> Ino
        requires { IsTrue (is_there self.now ino) }
        ensures { (family : Family) → StandsFor self.now family → result ≡ story.realm_of family ino }
    {
        self.realm_at(ino)
    }

    /// The first id for which an inode is valid.
    pub fn birth_of(&self, ino: Ino) -> SnapId
        requires { IsTrue (is_there self.now ino) }
        ensures records { result ≡ records.birth_of self.now ino }
        ensures story { (family : Family) → StandsFor self.now family → result ≡ story.birth_of family ino }
    {
        birth(&self.nodes, ino)
    }

    // The sequence id of an inode's context, by the records.
    fn seq_at(&self, ino: Ino) -> u64
        ensures { result ≡ records.seq_of self.now ino }
    {
        let top = if is_under(&self.nodes, ino, GLOBAL) {
            self.applied.0
        } else {
            seq(&self.nodes, ino)
        };
        if birth(&self.nodes, ino).0 <= top {
            top
        } else {
            1
        }
    }

    /// The sequence id of an inode's context.
    pub fn seq_of(&self, ino: Ino) -> SnapId
        requires { IsTrue (is_there self.now ino) }
        ensures { (family : Family) → StandsFor self.now family → result ≡ (story.context family ino).seq }
    {
        SnapId(self.seq_at(ino))
    }

    // The ids of the live snapshots, by the records.
    fn live_ids(&self) -> Result<Vec<SnapId>, RealmError>
        ensures records { IfOk result (λ ids. ids.items ≡ records.live_ids self.now) }
        ensures no_memory { IfErr result (λ error. error ≡ RealmError.NoMemory) }
    {
        let ids = self
            .snaps
            .iter()
            .filter(|snap| snap.live)
            .map(|snap| snap.id)
            .collect(self.alloc)?;
        Ok(ids)
    }

    /// The ids that were added and not dropped, falling. It fails only with `NoMemory`.
    pub fn live(&self) -> Result<Ids, RealmError>
        ensures story { IfOk result (λ ids. (family : Family) → StandsFor self.now family → ids ≡ story.live_ids family) }
        ensures no_memory { IfErr result (λ error. error ≡ RealmError.NoMemory) }
    {
        let ids = self.live_ids()?;
        Ok(Ids::from_vec(ids))
    }

    // The realms that contain an inode, by the records.
    fn realms(&self, ino: Ino) -> Result<Vec<RealmInfo>, RealmError>
        ensures records { IfOk result (λ realms. realms.items ≡ records.trace_of self.now ino) }
        ensures no_memory { IfErr result (λ error. error ≡ RealmError.NoMemory) }
    {
        if !is_under(&self.nodes, ino, GLOBAL) {
            return Ok(infos(self.alloc, &self.nodes, &self.snaps, ino)?);
        }
        let past = Ids::from_vec(ids_of(self.alloc, &self.snaps)?);
        let info = RealmInfo {
            ino: GLOBAL,
            seq: self.applied,
            since: SnapId(0),
            own: Ids::new(self.alloc),
            past,
        };
        let mut realms = Vec::new(self.alloc);
        realms.push(info)?;
        Ok(realms)
    }

    /// The realms that contain an inode, the nearest first: each with its own ids and its past ones that the store still
    /// keeps, and what is in the global realm by that realm alone, with all ids. It fails only with `NoMemory`.
    pub fn trace(&self, ino: Ino) -> Result<Trace, RealmError>
        requires { IsTrue (is_there self.now ino) }
        ensures records { IfOk result (λ trace. trace ≡ records.trace_of self.now ino) }
        ensures story { IfOk result (λ trace. (family : Family) → StandsFor self.now family
            → context_of_trace trace (story.birth_of family ino) ≡ story.context family ino) }
        ensures realms { IfOk result (λ trace. (family : Family) → StandsFor self.now family
            → map (λ (info : Info). (info.ino, info.own)) trace ≡ realms_of family ino) }
        ensures no_memory { IfErr result (λ error. error ≡ RealmError.NoMemory) }
    {
        let realms = self.realms(ino)?;
        Ok(Trace::from_vec(realms))
    }

    // The context that the records give an inode with this first id.
    fn context_at(&self, ino: Ino, birth: SnapId) -> Result<SnapContext, RealmError>
        requires { birth.0 < NOSNAP.0 }
        ensures records { IfOk result (λ context. context ≡ context_of_trace (records.trace_of self.now ino) birth) }
        ensures no_memory { IfErr result (λ error. error ≡ RealmError.NoMemory) }
    {
        let trace = Trace::from_vec(self.realms(ino)?);
        let context = context_of(self.alloc, &trace, birth)?;
        Ok(context)
    }

    /// The context of an inode: the ids that cover it and that the store still keeps, falling, and the greatest that ever
    /// covered it. It fails only with `NoMemory`.
    pub fn context(&self, ino: Ino) -> Result<SnapContext, RealmError>
        requires there { IsTrue (is_there self.now ino) }
        ensures story { IfOk result (λ context. (family : Family) → StandsFor self.now family
            → context ≡ story.context family ino) }
        ensures no_memory { IfErr result (λ error. error ≡ RealmError.NoMemory) }
    {
        let birth = birth(&self.nodes, ino);
        let first = capped(birth);
        let context = self.context_at(ino, first)?;
        Ok(context)
    }

    /// The ids of an inode's realm, falling: from the inode's birth on those of its context. It fails only with
    /// `NoMemory`.
    pub fn effective(&self, ino: Ino) -> Result<Ids, RealmError>
        requires there { IsTrue (is_there self.now ino) }
        ensures story { IfOk result (λ ids. (family : Family) → StandsFor self.now family
            → from_id (story.birth_of family ino) ids ≡ (story.context family ino).ids) }
        ensures records { IfOk result (λ ids.
            ids ≡ (context_of_trace (records.trace_of self.now ino) (record { 0 = 0 })).ids) }
        ensures falls { IfOk result (λ ids. IsTrue (falls ids)) }
        ensures no_memory { IfErr result (λ error. error ≡ RealmError.NoMemory) }
    {
        let context = self.context_at(ino, SnapId(0))?;
        let listed = context.ids();
        let ids = copied(self.alloc, listed)?;
        Ok(Ids::from_vec(ids))
    }

    /// An inode is made below another one. It fails only with `NoMemory`, and all is as before then.
    pub fn born(&mut self, ino: Ino, parent: Ino) -> Result<(), RealmError>
        requires there { IsTrue (is_there self.old parent) }
        requires outside { is_in_global self.old parent ≡ false }
        requires new { is_there self.old ino ≡ false }
        ensures story { OnOk result ((family : Family) → StandsFor self.old family
            → IsTrue (story.is_fresh ino family.snaps) → StandsFor self.new (story.born ino parent family)) }
        ensures no_memory { IfErr result (λ error. error ≡ RealmError.NoMemory) }
        ensures err { OnErr result (self.new ≡ self.old) }
    {
        let node = Node {
            parent: Some(parent),
            birth: SnapId(self.applied.0 + 1),
            realm: None,
        };
        put(&mut self.nodes, ino, node)?;
        Ok(())
    }

    /// A file that gets a second name goes to the global realm for good. It fails only with `NoMemory`, and all is as
    /// before then.
    pub fn to_global(&mut self, ino: Ino) -> Result<(), RealmError>
        requires there { IsTrue (is_there self.old ino) }
        requires leaf { IsLeaf self.old ino }
        ensures story { OnOk result ((family : Family) → StandsFor self.old family
            → StandsFor self.new (story.to_global ino family)) }
        ensures no_memory { IfErr result (λ error. error ≡ RealmError.NoMemory) }
        ensures err { OnErr result (self.new ≡ self.old) }
    {
        let node = Node {
            parent: Some(GLOBAL),
            birth: birth(&self.nodes, ino),
            realm: None,
        };
        put(&mut self.nodes, ino, node)?;
        Ok(())
    }

    /// An inode is there no more. It takes no memory.
    pub fn forget(&mut self, ino: Ino)
        requires there { IsTrue (is_there self.old ino) }
        requires leaf { IsLeaf self.old ino }
        ensures { (family : Family) → StandsFor self.old family → StandsFor self.new (story.forget ino family) }
    {
        take(&mut self.nodes, ino);
    }

    /// The store has dropped a snapshot that has lost its name: its id is left out from now on. It takes no memory.
    pub fn purged(&mut self, id: SnapId)
        requires { is_live self.old id ≡ false }
        ensures { (family : Family) → StandsFor self.old family → StandsFor self.new (story.purged id family) }
    {
        self.snaps.retain(|snap| snap.id.0 != id.0);
    }

    // Whether an inode leaves its realm by a move below another one, by the records.
    fn leaves(&self, ino: Ino, to: Ino) -> bool
        ensures { result ≡ records.leaves self.now (parent_by (node_at self.now.nodes ino.0)) to }
    {
        match parent(&self.nodes, ino) {
            Some(old) => self.realm_at(old).0 != self.realm_at(to).0,
            None => true,
        }
    }

    // Whether a directory has a live snapshot, by the records.
    fn has_live_by_records(&self, dir: Ino) -> bool
        ensures { result ≡ list_any (is_live_of dir) self.now.snaps }
    {
        self.snaps
            .iter()
            .any(|snap| snap.live && snap.root.0 == dir.0)
    }

    /// Whether a directory has a live snapshot.
    pub fn has_live(&self, dir: Ino) -> bool
        ensures { (family : Family) → StandsFor self.now family
            → result ≡ list_any (λ (snap : Made). snap.live && same_ino snap.root dir) family.snaps }
    {
        self.has_live_by_records(dir)
    }

    // The same by the records.
    fn opens_by_records(&self, ino: Ino, parent: Ino) -> bool
        ensures { result ≡ ((not (is_in_global self.now ino)
            && records.leaves self.now (parent_by (node_at self.now.nodes ino.0)) parent)
            && not (begins_at self.now ino)) }
    {
        !is_under(&self.nodes, ino, GLOBAL) && self.leaves(ino, parent) && !begins(&self.nodes, ino)
    }

    /// Whether a realm begins at an inode once it is moved below another one, and none begins at it yet: it leaves its
    /// realm then.
    pub fn opens(&self, ino: Ino, parent: Ino) -> bool
        requires there { IsTrue (is_there self.now ino) }
        requires parent_there { IsTrue (is_there self.now parent) }
        requires no_root { is_root ino ≡ false }
        requires outside { is_in_global self.now parent ≡ false }
        requires apart { is_under self.now parent ino ≡ false }
        ensures { (family : Family) → StandsFor self.now family → result
            ≡ (story.leaves_realm ino parent family && not (story.is_marked family.marked ino)) }
    {
        self.opens_by_records(ino, parent)
    }

    // The ids of other directories' snapshots that the realms of an inode list.
    fn left_ids(&self, ino: Ino) -> Result<Vec<SnapId>, RealmError>
        ensures records { IfOk result (λ ids. ids.items ≡ records.left_at self.now ino) }
        ensures no_memory { IfErr result (λ error. error ≡ RealmError.NoMemory) }
    {
        let ids = left(self.alloc, &self.nodes, &self.snaps, ino)?;
        Ok(ids)
    }

    // The greatest sequence id that the realms of an inode give.
    fn top(&self, ino: Ino) -> u64
        ensures { result ≡ seq_on (node_at self.now.nodes) (records.way self.now ino) }
    {
        seq(&self.nodes, ino)
    }

    // The realm that is to begin at an inode that leaves another one.
    fn opened(&self, ino: Ino) -> Result<Realm, RealmError>
        ensures records { IfOk result (λ realm. realm ≡ records.opened_at self.now ino) }
        ensures no_memory { IfErr result (λ error. error ≡ RealmError.NoMemory) }
    {
        let past = self.left_ids(ino)?;
        Ok(Realm {
            seq: SnapId(self.top(ino)),
            since: SnapId(self.applied.0 + 1),
            past: Ids::from_vec(past),
        })
    }

    /// An inode is moved below another one: a realm begins at it where it leaves that of its parent, which is answered,
    /// and it keeps the ids of its old realms. What is in the global realm stays there. It fails only with `NoMemory`,
    /// and all is as before then.
    pub fn move_to(&mut self, ino: Ino, parent: Ino) -> Result<bool, RealmError>
        requires there { IsTrue (is_there self.old ino) }
        requires parent_there { IsTrue (is_there self.old parent) }
        requires no_root { is_root ino ≡ false }
        requires outside { is_in_global self.old parent ≡ false }
        requires apart { is_under self.old parent ino ≡ false }
        ensures story { OnOk result ((family : Family) → StandsFor self.old family
            → StandsFor self.new (story.move_to ino parent family)) }
        ensures leaves { IfOk result (λ leaves. (family : Family) → StandsFor self.old family
            → leaves ≡ story.leaves_realm ino parent family) }
        ensures no_memory { IfErr result (λ error. error ≡ RealmError.NoMemory) }
        ensures err { OnErr result (self.new ≡ self.old) }
    {
        if is_under(&self.nodes, ino, GLOBAL) {
            return Ok(false);
        }
        if !self.leaves(ino, parent) {
            hang(&mut self.nodes, ino, parent);
            return Ok(false);
        }
        let realm = self.opened(ino)?;
        open(&mut self.nodes, ino, realm);
        hang(&mut self.nodes, ino, parent);
        Ok(true)
    }

    // The same by the records.
    fn refusal_by_records(&self, dir: Ino, name: &Name) -> Option<RealmError>
        ensures { result ≡ refusal_kept dir name.now self.now.snaps }
    {
        refusal(&self.snaps, dir, name)
    }

    /// Why a snapshot of a directory with this name can't be made now, if it can't: the first of `SnapExists`,
    /// `TooManySnaps` and `TooManyLive` that applies, as `add_snap` answers it. It takes no memory.
    pub fn refusal(&self, dir: Ino, name: &Name) -> Option<RealmError>
        ensures { (family : Family) → StandsFor self.now family → result ≡ refusal dir name.now family.snaps }
    {
        self.refusal_by_records(dir, name)
    }

    // The same by the records.
    fn own_by_records(&self, dir: Ino, name: &Name) -> Option<SnapId>
        ensures { result ≡ id_by (find (has_name dir name.now) self.now.snaps) }
    {
        id_named(&self.snaps, dir, name)
    }

    /// The id of a directory's own live snapshot that has a name, the one that `drop_snap` drops. It takes no memory.
    pub fn own_snap(&self, dir: Ino, name: &Name) -> Option<SnapId>
        ensures { (family : Family) → StandsFor self.now family → result ≡ id_named dir name.now family.snaps }
    {
        self.own_by_records(dir, name)
    }

    // The same by the records.
    fn name_by_records(&self, id: SnapId) -> Option<(Ino, &Name)>
        ensures { option_map (λ named. (named.0, named.1.now)) result ≡ name_by (find (has_id id) self.now.snaps) }
    {
        name_with(&self.snaps, id)
    }

    /// The directory and the name of the live snapshot that has an id. It takes no memory.
    pub fn name_of(&self, id: SnapId) -> Option<(Ino, &Name)>
        ensures { (family : Family) → StandsFor self.now family
            → option_map (λ named. (named.0, named.1.now)) result ≡ name_with id family.snaps }
    {
        self.name_by_records(id)
    }

    // The same by the records.
    fn add(&mut self, dir: Ino, id: SnapId, name: Name) -> Result<(), RealmError>
        requires there { IsTrue (is_there self.old dir) }
        requires no_stray { dir ≡ STRAY → ⊥ }
        requires outside { is_in_global self.old dir ≡ false }
        requires name { IsTrue (is_new_snap name) }
        requires later { self.old.applied.0 < id.0 }
        requires small { id.0 < 4611686018427387904 }
        ensures story { OnOk result ((family : Family) → StandsFor self.old family
            → StandsFor self.new (story.add_snap dir id name family)) }
        ensures refused { (error : Refused) → refusal_kept dir name self.old.snaps ≡ Some error → result ≡ Err error }
        ensures allowed { refusal_kept dir name self.old.snaps ≡ None → IfErr result (λ error. error ≡ RealmError.NoMemory) }
        ensures err { OnErr result (self.new ≡ self.old) }
    {
        if let Some(error) = refusal(&self.snaps, dir, &name) {
            return Err(error);
        }
        let made = Snap {
            id,
            root: dir,
            name,
            live: true,
        };
        self.snaps.insert(0, made)?;
        snap(&mut self.nodes, self.alloc, dir, id);
        self.applied = id;
        Ok(())
    }

    /// A snapshot is made of all under a directory. It has an id above all earlier ones. In this order: `SnapExists`
    /// exactly where a live snapshot of the directory has the name, `TooManySnaps` exactly where it has 100 live ones,
    /// `TooManyLive` exactly where 128 are live; all three take no memory to see. At want of memory all is as before.
    pub fn add_snap(&mut self, dir: Ino, id: SnapId, name: Name) -> Result<(), RealmError>
        requires there { IsTrue (is_there self.old dir) }
        requires no_stray { dir ≡ STRAY → ⊥ }
        requires outside { is_in_global self.old dir ≡ false }
        requires name { IsTrue (is_new_snap name) }
        requires later { self.old.applied.0 < id.0 }
        requires small { id.0 < 4611686018427387904 }
        ensures story { OnOk result ((family : Family) → StandsFor self.old family
            → StandsFor self.new (story.add_snap dir id name family)) }
        ensures refused { (family : Family) (error : Refused) → StandsFor self.old family
            → refusal dir name family.snaps ≡ Some error → result ≡ Err error }
        ensures allowed { (family : Family) → StandsFor self.old family → refusal dir name family.snaps ≡ None
            → IfErr result (λ error. error ≡ RealmError.NoMemory) }
        ensures err { OnErr result (self.new ≡ self.old) }
    {
        self.add(dir, id, name)
    }

    // The same by the records.
    fn unname(&mut self, dir: Ino, name: &Name) -> Result<SnapId, RealmError>
        ensures story { OnOk result ((family : Family) → StandsFor self.old family
            → StandsFor self.new (story.drop_snap dir name.now family)) }
        ensures id { IfOk result (λ id. id_by (find (has_name dir name.now) self.old.snaps) ≡ Some id) }
        ensures no_snap { IfErr result (λ error. (error ≡ RealmError.NoSnap)
            × (id_by (find (has_name dir name.now) self.old.snaps) ≡ None)) }
        ensures err { OnErr result (self.new ≡ self.old) }
    {
        match id_named(&self.snaps, dir, name) {
            Some(id) => {
                unname_all(&mut self.snaps, dir, name);
                Ok(id)
            }
            None => Err(RealmError::NoSnap),
        }
    }

    /// The live snapshot of a directory that has a name loses it, and its id is answered. It stays in the contexts until
    /// the store has dropped it. `NoSnap` exactly where no live snapshot of the directory has the name.
    pub fn drop_snap(&mut self, dir: Ino, name: &Name) -> Result<SnapId, RealmError>
        ensures story { OnOk result ((family : Family) → StandsFor self.old family
            → StandsFor self.new (story.drop_snap dir name.now family)) }
        ensures id { IfOk result (λ id. (family : Family) → StandsFor self.old family
            → id_named dir name.now family.snaps ≡ Some id) }
        ensures no_snap { IfErr result (λ error. (error ≡ RealmError.NoSnap)
            × ((family : Family) → StandsFor self.old family → id_named dir name.now family.snaps ≡ None)) }
        ensures err { OnErr result (self.new ≡ self.old) }
    {
        self.unname(dir, name)
    }

    // The same by the records.
    fn id_at(&self, dir: Ino, name: &Name) -> Option<SnapId>
        ensures { result ≡ id_by (find (λ (snap : Snapshot). is_shown self.now.nodes dir snap
            && bytes_eq name.now (name_of dir snap)) self.now.snaps) }
    {
        id_shown(&self.nodes, &self.snaps, dir, name)
    }

    /// The id of the snapshot that a directory shows under a name: its own one of that name, or for `_NAME_INO` the
    /// snapshot NAME of the directory INO, where that covers it. `None` exactly where it shows none under the name. It
    /// takes no memory. Ceph developer guide, CephFS Snapshots.
    pub fn snap_named(&self, dir: Ino, name: &Name) -> Option<SnapId>
        requires there { IsTrue (is_there self.now dir) }
        requires outside { is_in_global self.now dir ≡ false }
        ensures { (family : Family) → StandsFor self.now family
            → result ≡ id_in (story.shown family dir) name.now }
    {
        self.id_at(dir, name)
    }

    // The same by the records.
    fn names_at(&self, dir: Ino) -> Result<Vec<(Name, Kind)>, RealmError>
        ensures records { IfOk result (λ names. names.items ≡ fold (with_shown self.now.nodes dir) [] self.now.snaps) }
        ensures no_memory { IfErr result (λ error. error ≡ RealmError.NoMemory) }
    {
        shown_names(self.alloc, &self.nodes, &self.snaps, dir)
    }

    /// The names of the snapshots that a directory shows, by their bytes, each as a directory: its own by their names, and
    /// `_NAME_INO` for the snapshot NAME of another directory INO that covers it. It fails only with `NoMemory`.
    pub fn names(&self, dir: Ino) -> Result<Entries, RealmError>
        requires there { IsTrue (is_there self.now dir) }
        requires outside { is_in_global self.now dir ≡ false }
        ensures story { IfOk result (λ names. (family : Family) → StandsFor self.now family
            → names ≡ listed (story.shown family dir)) }
        ensures no_memory { IfErr result (λ error. error ≡ RealmError.NoMemory) }
    {
        let names = self.names_at(dir)?;
        Ok(Entries::from_vec(names))
    }
}
