// The ids that are named along a history, and when their snapshots were made.
ghost use Rattle.std.specs.Prelude.{◌≡◌, ◌≤◌, ◌++◌, ◌∷◌, ℕ, List, true};
ghost use Rattle.snap_ids.specs.declared.id.Ino.{Ino};
ghost use Rattle.snap_ids.specs.declared.id.SnapId.{SnapId};
ghost use Rattle.plain_types.specs.declared.entry.Entry.{Entry};
ghost use Rattle.plain_types.specs.declared.entry.What.TheVariants.{Settle, Release};
ghost use Rattle.plain_types.specs.declared.history.Event.{Event};
ghost use Rattle.plain_types.specs.declared.script.Script.{Script};
ghost use Rattle.plain_journal.specs.Entries.{applied};
ghost use Rattle.journal_shapes.specs.Past.{flushes_are_past};
ghost use Rattle.step_table.specs.Legal.{Legal};
ghost use Rattle.step_table.specs.World.{journal};
ghost use Rattle.run_laws.specs.Moments.{world_after};
ghost use Rattle.run_laws.specs.Links.{EachClient};
ghost use Rattle.id_laws.specs.Made.{ToldOfMade, KeepsMade, SaysMade};

/// Each flush that the server has entered names only ids of snapshots that were made by then: it follows one, and settles its
/// file up to one or for what is live too. So it is of what the server has entered, and of what is durable of that.
pub fn every_flush_is_past()
    ensures entered { (script : Script) (history : List Event) → Legal history script → (ino : Ino)
        → flushes_are_past (world_after script history).server.entries ino ≡ true }
    ensures durable { (script : Script) (history : List Event) → Legal history script → (ino : Ino)
        → flushes_are_past (journal (world_after script history)) ino ≡ true }
{}

/// A flush that the server enters follows a snapshot that was made by then, and one that is no release settles its file up to
/// such a one; 1 stands for none.
pub fn flushes_name_made_snapshots()
    ensures settled { (script : Script) (history : List Event) → Legal history script
        → (before later : List Entry) (e : Entry) (ino : Ino) (follows upto : SnapId) (size : ℕ) → (world_after script history).server.entries ≡ before ++ e ∷ later
        → e.what ≡ Settle ino follows upto size → (follows.0 ≤ applied before) × (upto.0 ≤ applied before) }
    ensures released { (script : Script) (history : List Event) → Legal history script
        → (before later : List Entry) (e : Entry) (ino : Ino) (follows : SnapId) (size : ℕ) → (world_after script history).server.entries ≡ before ++ e ∷ later
        → e.what ≡ Release ino follows size → follows.0 ≤ applied before }
{}

/// What a client is told of the contexts of files names no id above its stamp's, the last snapshot that was made as the
/// message was; and the entries that made it are durable.
pub fn what_a_client_is_told_was_made()
    ensures { (script : Script) (history : List Event) → Legal history script → EachClient ToldOfMade (world_after script history) }
{}

/// What a client keeps and sends names no id above the last snapshot that the durable entries made: the contexts of its files,
/// the ids up to which they are settled, its marks, the flushes that it keeps and sends, the claims and flushes that it brings
/// along as it connects.
pub fn what_a_client_keeps_was_made()
    ensures keeps { (script : Script) (history : List Event) → Legal history script → EachClient KeepsMade (world_after script history) }
    ensures says { (script : Script) (history : List Event) → Legal history script → EachClient SaysMade (world_after script history) }
{}
