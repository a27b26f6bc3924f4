// What a run keeps of the journal.
ghost use Rattle.std.specs.Prelude.{◌≡◌, ◌++◌, ◌∷◌, [], List, false, take};
ghost use Rattle.plain_types.specs.declared.entry.Entry.{Entry};
ghost use Rattle.plain_types.specs.declared.history.Event.{Event};
ghost use Rattle.plain_types.specs.declared.script.Script.{Script};
ghost use Rattle.step_table.specs.Legal.{Legal};
ghost use Rattle.step_table.specs.Restarts.{is_restart};
ghost use Rattle.step_table.specs.World.{journal};
ghost use Rattle.run_laws.specs.Moments.{world_after};

/// What is durable at a moment of a legal history stays, and stays first; and at each step but a restart the entries that
/// aren't durable yet stay too.
pub fn the_journal_only_grows()
    ensures durable { (script : Script) (history later : List Event) → Legal (history ++ later) script
        → (more : List Entry) × (journal (world_after script (history ++ later)) ≡ journal (world_after script history) ++ more) }
    ensures buffered { (script : Script) (history : List Event) (event : Event) → Legal (history ++ event ∷ []) script
        → is_restart event.step ≡ false
        → (more : List Entry) × ((world_after script (history ++ event ∷ [])).server.entries ≡ (world_after script history).server.entries ++ more) }
{}
