// That what the table makes of steps is legal by its own word.
ghost use Rattle.std.specs.Prelude.{List};
ghost use Rattle.plain_types.specs.declared.history.Step.{Step};
ghost use Rattle.step_table.specs.World.{World, run};
ghost use Rattle.step_table.specs.Legal.{LegalFrom};

/// The events that the table makes of a list of steps, up to the first that isn't enabled, are its rows one after another.
pub fn what_the_table_runs_is_legal()
    ensures { (w : World) → (steps : List Step) → LegalFrom w (run w steps) }
{}
