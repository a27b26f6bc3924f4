// What no step changes.
ghost use Rattle.std.specs.Prelude.{◌≡◌, List, true};
ghost use Rattle.snap_ids.specs.declared.id.Ino.{Ino};
ghost use Rattle.plain_types.specs.declared.history.Event.{Event};
ghost use Rattle.plain_types.specs.declared.history.Step.{Step};
ghost use Rattle.plain_types.specs.declared.script.Script.{Script};
ghost use Rattle.journal_shapes.specs.Past.{flushes_are_past};
ghost use Rattle.step_table.specs.Legal.{Legal};
ghost use Rattle.step_table.specs.World.{after_row, row};
ghost use Rattle.run_laws.specs.Moments.{world_after};

use id_laws::every_flush_is_past;
use run_laws::runs_are_legal;

/// There are as many clients as the script says.
pub fn clients_stay()
    ensures { (script : Script) (history : List Event) → Legal history script
        → (world_after script history).server.clients ≡ script.clients }
{}

/// One more step, whichever it is, enters no flush that names an id of a snapshot that wasn't made by then.
pub fn flushes_stay_past()
    ensures { (script : Script) (history : List Event) → Legal history script → (step : Step) (ino : Ino)
        → flushes_are_past (after_row (world_after script history) (row (world_after script history) step)).server.entries ino ≡ true }
{
    runs_are_legal();
    every_flush_is_past();
}
