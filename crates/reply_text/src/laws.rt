// The definitions, tried on a small run.
ghost use Rattle.std.specs.Prelude.{◌≡◌};
ghost use Rattle.reply_text.specs.Example.{text_of, small_script, small_history, small_plain, small_json, small_steps, small_summary};
ghost use Rattle.reply_text.specs.Text.{text};

use crate::form::Form;

/// The text of a small run in each form: a directory gets a snapshot and then a directory, and both are listed.
pub fn small_texts()
    ensures plain { text small_script small_history Form.Plain ≡ text_of small_plain }
    ensures json { text small_script small_history Form.Json ≡ text_of small_json }
    ensures steps { text small_script small_history Form.Steps ≡ text_of small_steps }
    ensures summary { text small_script small_history Form.Summary ≡ text_of small_summary }
{}
