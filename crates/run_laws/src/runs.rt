// That the table's runs are histories.
ghost use Rattle.std.specs.Prelude.{List};
ghost use Rattle.plain_types.specs.declared.history.Step.{Step};
ghost use Rattle.plain_types.specs.declared.script.Script.{Script};
ghost use Rattle.step_table.specs.Legal.{Legal};
ghost use Rattle.step_table.specs.World.{run, start};

/// What the table runs from a script's start, whatever the steps, is a legal history of that script: event by event it is
/// the table's row, and each node takes from each other what that one sent, in this order, to the letter.
pub fn runs_are_legal()
    ensures { (script : Script) (steps : List Step) → Legal (run (start script) steps) script }
{}
