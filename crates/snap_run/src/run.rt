// The program's one call.
ghost use Rattle.std.specs.Prelude.{◌≡◌, ◌≢◌, ℕ, List, [], true, false, Err};
ghost use Rattle.std.specs.Io.KnownBytes.{Appends};
ghost use Rattle.io_edge.specs.Outside.{Rises};
ghost use Rattle.script_text.specs.Grammar.{grammar};
ghost use Rattle.script_text.specs.Outcome.{status_of};
ghost use Rattle.script_text.specs.declared.error.ScriptError.{ScriptError};
ghost use Rattle.script_text.specs.declared.outcome.End.{End as Ending};
ghost use Rattle.snap_run.specs.Ends.{is_replay, end_of, EndsAs};
ghost use Rattle.snap_run.specs.Run.{texts, error_text, reading_of, writing_of, Broken, RunsAll, ComesTo, Faults, IsOutcome, Tells, IsSound};

use crate::edge::write_text;
use crate::verdict::verdict_of;
use io_edge::{Sink, Source};
use plain_types::History;
use script_text::{End, Outcome};
use snap_ids::NoMemory;
use std::alloc::Global;

fn ended(end: End, history: History) -> Outcome
    ensures status { result.status ≡ status_of result.end }
    ensures end { result.end ≡ end }
    ensures history { result.history ≡ history }
{
    Outcome {
        status: end.status(),
        end,
        history,
    }
}

// Runs the words over the source and writes what they come to.
fn run<S: Source, W: Sink>(alloc: Global, words: &[String], source: &mut S, sink: &mut W) -> Outcome
    ensures status { result.status ≡ status_of result.end }
    ensures outcome { IsOutcome (texts words.now)
        (reading_of S.left S.faults source.old source.new)
        (writing_of W.written W.faults sink.old sink.new)
        result.end result.history }
    ensures unwritten { result.end ≡ End.NoMemory → sink.new ≡ sink.old }
    ensures unread { is_replay (texts words.now) ≡ false → source.new ≡ source.old }
{
    match verdict_of(alloc, words, source) {
        Ok(verdict) => match write_text(sink, &verdict.text) {
            Ok(()) => ended(verdict.end, verdict.history),
            Err(_) => ended(End::WriteFault, verdict.history),
        },
        Err(NoMemory) => ended(End::NoMemory, History::new(alloc)),
    }
}

/// Runs the program: `words` are its words, with its own name first, and must be exactly `replay`. It reads a script
/// from the source to its end, serves it, and writes the replies to the sink, or a line that tells of an error. What
/// the bytes of a script come to is told by `run_bytes`.
///
/// The outcome says how that ended, with the exit status, and the history of the steps that were made. Want of memory
/// may end it at any moment before the writing begins; then nothing is written.
pub fn run_tool<S: Source, W: Sink>(
    alloc: Global,
    words: &[String],
    source: &mut S,
    sink: &mut W,
) -> Outcome
    ensures status { result.status ≡ status_of result.end }

    // The script that the source spells was run, each reply is the plain tree's, and the text of all was written.
    ensures done { result.end ≡ End.Done → (printed : List ℕ)
        × RunsAll (texts words.now) (reading_of S.left S.faults source.old source.new) result.history printed
        × ComesTo (texts words.now) (reading_of S.left S.faults source.old source.new) End.Done
        × Appends (W.written sink.old) (W.written sink.new) printed
        × (W.faults sink.new ≡ W.faults sink.old) }

    // No step was made, and the line that tells of the error was written.
    ensures usage { result.end ≡ End.Usage → (is_replay (texts words.now) ≡ false)
        × (result.history ≡ [])
        × Appends (W.written sink.old) (W.written sink.new) (error_text End.Usage) }
    ensures refused { (error : ScriptError) → result.end ≡ End.ScriptRefused error
        → ComesTo (texts words.now) (reading_of S.left S.faults source.old source.new) (End.ScriptRefused error)
        × (result.history ≡ [])
        × Appends (W.written sink.old) (W.written sink.new) (error_text (End.ScriptRefused error)) }
    ensures unfinished { (lines : ℕ) → result.end ≡ End.Unfinished lines
        → ComesTo (texts words.now) (reading_of S.left S.faults source.old source.new) (End.Unfinished lines)
        × (result.history ≡ [])
        × Appends (W.written sink.old) (W.written sink.new) (error_text (End.Unfinished lines)) }
    ensures read_fault { result.end ≡ End.ReadFault
        → Faults (texts words.now) (reading_of S.left S.faults source.old source.new)
        × (result.history ≡ [])
        × Appends (W.written sink.old) (W.written sink.new) (error_text End.ReadFault) }

    // The sink's count has risen, and what was written is a front of what was to be written.
    ensures write_fault { result.end ≡ End.WriteFault
        → Broken (texts words.now) (reading_of S.left S.faults source.old source.new)
        (writing_of W.written W.faults sink.old sink.new) result.history }

    // Nothing is told and nothing is written.
    ensures no_memory { result.end ≡ End.NoMemory → (result.history ≡ []) × (sink.new ≡ sink.old) }

    // No schedule is followed step by step yet, and no disk is there to fail.
    ensures never { ((line : ℕ) → result.end ≢ End.ScheduleRefused line) × (result.end ≢ End.DiskFault) }

    // Nothing is read for words that are no form.
    ensures unread { is_replay (texts words.now) ≡ false → source.new ≡ source.old }

    // Where no count rises, words and input come to their one end, or to want of memory.
    ensures complete { (end : Ending)
        → Tells (reading_of S.left S.faults source.old source.new) (λ input. end_of (texts words.now) input ≡ end)
        → IsSound (reading_of S.left S.faults source.old source.new)
        (writing_of W.written W.faults sink.old sink.new)
        → EndsAs end result.end }
    ensures complete_refusal { (error : ScriptError) → is_replay (texts words.now) ≡ true
        → Tells (reading_of S.left S.faults source.old source.new) (λ input. grammar input true ≡ Err error)
        → IsSound (reading_of S.left S.faults source.old source.new)
        (writing_of W.written W.faults sink.old sink.new)
        → EndsAs (End.ScriptRefused error) result.end }
    ensures complete_usage { is_replay (texts words.now) ≡ false
        → (Rises (W.faults sink.old) (W.faults sink.new) → ⊥)
        → EndsAs End.Usage result.end }
{
    run(alloc, words, source, sink)
}
