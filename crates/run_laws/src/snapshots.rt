// How snapshots are made, and the ids that clients hear of.
ghost use Rattle.std.specs.Prelude.{◌≡◌, ◌<◌, ◌++◌, ◌∷◌, ℕ, List, Some, map, true};
ghost use Rattle.snap_ids.specs.declared.id.Ino.{Ino};
ghost use Rattle.snap_ids.specs.declared.id.SnapId.{SnapId};
ghost use Rattle.plain_types.specs.declared.entry.Entry.{Entry};
ghost use Rattle.plain_types.specs.declared.entry.What.TheVariants.{PrepareCreate, PrepareDestroy, Mksnap, Rmsnap};
ghost use Rattle.plain_types.specs.declared.history.Event.{Event};
ghost use Rattle.plain_types.specs.declared.script.Script.{Script};
ghost use Rattle.plain_journal.specs.Entries.{applied, state_after};
ghost use Rattle.plain_journal.specs.Table.{next_snap};
ghost use Rattle.step_table.specs.Legal.{Legal};
ghost use Rattle.step_table.specs.ServerState.{Asked};
ghost use Rattle.run_laws.specs.Moments.{world_after};
ghost use Rattle.run_laws.specs.Links.{EachClient};
ghost use Rattle.run_laws.specs.Prepared.{prepared, last_prepare, AsPrepared, is_live, snap_of};
ghost use Rattle.run_laws.specs.Stamps.{sent_to, NeverFall};

/// The outstanding operation is of the kind that was prepared: where a snapshot is to be made, its client asked to make a
/// directory; where one is to be removed, to remove one. And it is of the client and has the number of the entry that
/// prepared it.
pub fn operations_are_as_prepared()
    ensures asked { (script : Script) (history : List Event) → Legal history script → EachClient AsPrepared (world_after script history) }
    ensures whose { (script : Script) (history : List Event) → Legal history script
        → (a : Asked) (e : Entry) → (world_after script history).server.operation ≡ Some a
        → last_prepare (world_after script history).server.entries ≡ Some e → (e.client ≡ a.client) × (e.number ≡ a.tid) }
{}

/// Snapshots are made under rising ids. Each is made where its creation is prepared, and no removal, under the id that was
/// given for it. That id is above those of all snapshots made before, and below the next one to be given; so none is made
/// twice, and of two the one that is made later has the greater id.
pub fn snapshots_are_made_in_rising_order()
    ensures prepared { (script : Script) (history : List Event) → Legal history script
        → (before later : List Entry) (e : Entry) (id : SnapId) (dir : Ino) (name : List ℕ) → (world_after script history).server.entries ≡ before ++ e ∷ later
        → e.what ≡ Mksnap id dir name → prepared before ≡ Some (PrepareCreate id) }
    ensures above { (script : Script) (history : List Event) → Legal history script
        → (before later : List Entry) (e : Entry) (id : SnapId) (dir : Ino) (name : List ℕ) → (world_after script history).server.entries ≡ before ++ e ∷ later
        → e.what ≡ Mksnap id dir name → applied before < id.0 }
    ensures given { (script : Script) (history : List Event) → Legal history script
        → (before later : List Entry) (e : Entry) (id : SnapId) (dir : Ino) (name : List ℕ) → (world_after script history).server.entries ≡ before ++ e ∷ later
        → e.what ≡ Mksnap id dir name → id.0 < next_snap before }
    ensures rising { (script : Script) (history : List Event) → Legal history script
        → (before between later : List Entry) (e f : Entry) (id other : SnapId) (dir to_dir : Ino) (name to_name : List ℕ)
        → (world_after script history).server.entries ≡ before ++ e ∷ (between ++ f ∷ later)
        → e.what ≡ Mksnap id dir name → f.what ≡ Mksnap other to_dir to_name → id.0 < other.0 }
{}

/// The ids of snapshots that a client is told never fall: each message names the last snapshot that was made when the
/// message was, 1 before the first, and none that the server tells it later names a lower one.
pub fn snapshot_stamps_never_fall()
    ensures { (script : Script) (history : List Event) → Legal history script → (client : ℕ)
        → NeverFall 1 (map snap_of (sent_to client history)) }
{}

/// A snapshot is removed where its removal is prepared, and no creation; and it is live then.
pub fn snapshots_are_removed_as_prepared()
    ensures prepared { (script : Script) (history : List Event) → Legal history script
        → (before later : List Entry) (e : Entry) (id : SnapId) → (world_after script history).server.entries ≡ before ++ e ∷ later
        → e.what ≡ Rmsnap id → prepared before ≡ Some (PrepareDestroy id) }
    ensures live { (script : Script) (history : List Event) → Legal history script
        → (before later : List Entry) (e : Entry) (id : SnapId) → (world_after script history).server.entries ≡ before ++ e ∷ later
        → e.what ≡ Rmsnap id → is_live id (state_after before).snaps ≡ true }
{}
