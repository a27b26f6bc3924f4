// What the server's tables keep.
ghost use Rattle.std.specs.Prelude.{◌≡◌, ◌++◌, ◌∷◌, ℕ, List, None, true};
ghost use Rattle.snap_ids.specs.declared.id.Ino.{Ino};
ghost use Rattle.snap_ids.specs.declared.id.SnapId.{SnapId};
ghost use Rattle.snap_ids.specs.Context.{is_listed};
ghost use Rattle.plain_types.specs.declared.entry.Entry.{Entry};
ghost use Rattle.plain_types.specs.declared.entry.What.TheVariants.{PrepareCreate, Mksnap, Rmsnap};
ghost use Rattle.plain_types.specs.declared.history.Event.{Event};
ghost use Rattle.plain_types.specs.declared.script.Script.{Script};
ghost use Rattle.plain_journal.specs.Table.{outstanding, next_snap};
ghost use Rattle.step_table.specs.Background.{removed};
ghost use Rattle.step_table.specs.Capabilities.{OneWriter};
ghost use Rattle.step_table.specs.Legal.{Legal};
ghost use Rattle.step_table.specs.World.{journal};
ghost use Rattle.run_laws.specs.Moments.{world_after};
ghost use Rattle.run_laws.specs.Tables.{is_prepare, IsOut};

/// In the server's table a file has at most one holder for Write at each moment, and then no other holder.
pub fn a_file_has_one_writer()
    ensures { (script : Script) (history : List Event) → Legal history script → OneWriter (world_after script history).server.holders }
{}

/// One operation on the snapshot table is outstanding at most: where an entry prepares one, none is outstanding after the
/// entries before it.
pub fn one_operation_at_a_time()
    ensures { (script : Script) (history : List Event) → Legal history script
        → (before later : List Entry) (e : Entry) → (world_after script history).server.entries ≡ before ++ e ∷ later
        → is_prepare e.what ≡ true → outstanding before ≡ None }
{}

/// Ids of snapshots are given in rising order, none twice: a snapshot is prepared under the id that follows as many as were
/// prepared before. It is made, and a removed one is removed, under the id whose operation is outstanding then.
pub fn ids_are_given_in_order()
    ensures given { (script : Script) (history : List Event) → Legal history script
        → (before later : List Entry) (e : Entry) (id : SnapId) → (world_after script history).server.entries ≡ before ++ e ∷ later
        → e.what ≡ PrepareCreate id → id.0 ≡ next_snap before }
    ensures made { (script : Script) (history : List Event) → Legal history script
        → (before later : List Entry) (e : Entry) (id : SnapId) (dir : Ino) (name : List ℕ) → (world_after script history).server.entries ≡ before ++ e ∷ later
        → e.what ≡ Mksnap id dir name → IsOut before id }
    ensures removed { (script : Script) (history : List Event) → Legal history script
        → (before later : List Entry) (e : Entry) (id : SnapId) → (world_after script history).server.entries ≡ before ++ e ∷ later
        → e.what ≡ Rmsnap id → IsOut before id }
{}

/// An id is purged only after its removal: what the store was told to purge is removed by the durable entries.
pub fn what_is_purged_was_removed()
    ensures { (script : Script) (history : List Event) → Legal history script → (id : SnapId)
        → is_listed id (world_after script history).server.purging ≡ true
        → is_listed id (removed (journal (world_after script history))) ≡ true }
{}
