// The script that an input spells.
ghost use Rattle.std.specs.Prelude.{◌≡◌, ◌≢◌, ◌≤◌, length, OnOk, IfOk, IfErr, Ok, Err};
ghost use Rattle.script_text.specs.Grammar.{grammar};

use crate::cut::next_line;
use crate::error::ScriptError;
use crate::reading::Reading;
use plain_types::Script;
use std::alloc::Global;

/// The script that an input spells. A schedule may stand in it where `schedule` says so.
///
/// The refusal is that of the first line that has one: in this order TooLong, BadLine, Limit. Barriers comes after all
/// lines. Where memory is wanting, it is for a line that is accepted.
pub fn parse(alloc: Global, input: &[u8], schedule: bool) -> Result<Script, ScriptError>
    ensures spelled { IfOk result (λ script. grammar input.now schedule ≡ Ok script) }
    ensures refused { IfErr result (λ error.
        error ≢ ScriptError.NoMemory → grammar input.now schedule ≡ Err error) }

    // An accepted input, its client lines and its restart lines are within the limits.
    ensures short { OnOk result (length input.now ≤ 16777216) }
    ensures few { IfOk result (λ script. length script.lines ≤ 512) }
    ensures few_restarts { IfOk result (λ script. length script.restarts ≤ 16) }
{
    let mut reading = Reading::new(alloc);
    let mut left = input;
    while let Some((line, rest)) = next_line(left) {
        reading.read_line(alloc, schedule, line)?;
        left = rest;
    }
    reading.finish()
}
