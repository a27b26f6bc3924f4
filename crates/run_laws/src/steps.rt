// That a history has nothing free but traces.
ghost use Rattle.std.specs.Prelude.{◌≡◌, List, map};
ghost use Rattle.plain_types.specs.declared.history.Event.{Event};
ghost use Rattle.plain_types.specs.declared.script.Script.{Script};
ghost use Rattle.step_table.specs.Legal.{Legal};
ghost use Rattle.step_table.specs.World.{run, start};
ghost use Rattle.run_laws.specs.Moments.{steps_of};
ghost use Rattle.run_laws.specs.Plain.{plain_event};

/// A history is determined by its steps: its events are those that the table makes of them, all but the traces in messages,
/// which give the same contexts. So two histories of a script with the same steps say the same.
pub fn a_history_is_determined_by_its_steps()
    ensures made { (script : Script) (history : List Event) → Legal history script
        → map plain_event history ≡ map plain_event (run (start script) (steps_of history)) }
    ensures same { (script : Script) (history other : List Event) → Legal history script → Legal other script
        → steps_of history ≡ steps_of other → map plain_event history ≡ map plain_event other }
{}
