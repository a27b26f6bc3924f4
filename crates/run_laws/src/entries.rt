// That what the server enters is a journal.
ghost use Rattle.std.specs.Prelude.{◌≡◌, ◌≤◌, ◌++◌, ◌∷◌, List, true, is_some};
ghost use Rattle.plain_types.specs.declared.entry.Entry.{Entry};
ghost use Rattle.plain_types.specs.declared.history.Event.{Event};
ghost use Rattle.plain_types.specs.declared.script.Script.{Script};
ghost use Rattle.plain_journal.specs.Entries.{change_in};
ghost use Rattle.plain_journal.specs.Legal.{is_journal};
ghost use Rattle.plain_journal.specs.Table.{next_snap};
ghost use Rattle.step_table.specs.Legal.{Legal};
ghost use Rattle.step_table.specs.World.{journal, client};
ghost use Rattle.run_laws.specs.Moments.{world_after};

/// What the server enters is a legal journal at each moment, and so is what is durable, as long as the next id of a snapshot
/// is at most 2^62: each entry may follow those before it. Its change isn't refused by the tree as it is then; a new
/// directory or file has the next inode; a snapshot that is made has an id above the last one; a snapshot that is removed
/// is live; a flush is of a file that was made; what was purged was to be purged, and what was collected was dead.
pub fn what_is_entered_is_a_journal()
    ensures entered { (script : Script) (history : List Event) → Legal history script
        → next_snap (world_after script history).server.entries ≤ 4611686018427387904
        → is_journal (world_after script history).server.entries ≡ true }
    ensures durable { (script : Script) (history : List Event) → Legal history script
        → next_snap (journal (world_after script history)) ≤ 4611686018427387904
        → is_journal (journal (world_after script history)) ≡ true }
{}

/// Each effect is a client's: an entry that changes the tree, the snapshots or the handles is of a client that there is.
pub fn effects_are_of_clients()
    ensures { (script : Script) (history : List Event) → Legal history script
        → (before later : List Entry) (e : Entry) → (world_after script history).server.entries ≡ before ++ e ∷ later
        → is_some (change_in e.what) ≡ true → is_some (client (world_after script history).clients e.client) ≡ true }
{}
