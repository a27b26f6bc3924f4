// Laws of the grammar.
ghost use Rattle.std.specs.Prelude.{◌≡◌, ℕ, ◌≤◌, Bool, true, false, List, [], ◌∷◌, length, take, codes, Ok, Err};
ghost use Rattle.plain_types.specs.declared.script.Script.{Script};
ghost use Rattle.script_text.specs.Grammar.{grammar};
ghost use Rattle.script_text.specs.Examples.{text_of, script_of, snapshot_lines, snapshot_script, dressed_lines, dressed_script, planned_lines, planned_script};

use crate::error::ScriptError;

/// An accepted input has at most 16,777,216 bytes.
pub fn accepted_inputs_are_short()
    ensures { (input : List ℕ) (schedule : Bool) (script : Script) →
        grammar input schedule ≡ Ok script → length input ≤ 16777216 }
{}

/// The first 16,777,217 bytes of an input decide: no more of it need be read.
pub fn the_front_decides()
    ensures { (input : List ℕ) (schedule : Bool) →
        grammar (take 16777217 input) schedule ≡ grammar input schedule }
{}

/// What the grammar gives of small inputs.
pub fn small_inputs()
    ensures empty { grammar [] true ≡ Err (ScriptError.BadLine 1) }
    ensures header_alone { grammar (text_of (codes "clients 1" ∷ [])) false ≡ Ok (script_of 1 [] [] 1) }
    ensures wrong_verb { grammar (text_of (codes "clients 1" ∷ codes "1 frob" ∷ [])) false ≡ Err
        (ScriptError.BadLine 2) }
    ensures uneven_barriers { grammar (text_of (codes "clients 2" ∷ codes "1 barrier" ∷ [])) false ≡ Err
        (ScriptError.Barriers 1 2) }
{}

/// What the grammar gives of a script that makes a snapshot, of one with all that may stand before client lines, and of
/// one with a schedule.
pub fn small_scripts()
    ensures snapshot { grammar (text_of snapshot_lines) true ≡ Ok snapshot_script }
    ensures dressed { grammar (text_of dressed_lines) false ≡ Ok dressed_script }
    ensures planned { grammar (text_of planned_lines) true ≡ Ok planned_script }
    ensures not_allowed { grammar (text_of planned_lines) false ≡ Err (ScriptError.BadLine 2) }
{}
