// What a run comes to, before anything is written.
ghost use Rattle.std.specs.Prelude.{◌≡◌, ◌≢◌, ◌++◌, ◌≤◌, [], true, false, length, decimal, OnOk, IfOk};
ghost use Rattle.std.specs.List.{AllByRecursion};
ghost use Rattle.script_text.specs.Grammar.{grammar};
ghost use Rattle.script_text.specs.Outcome.{status_of};
ghost use Rattle.script_text.specs.declared.outcome.End.TheVariants as ending;
ghost use Rattle.script_text.specs.declared.error.ScriptError.TheVariants as script;
ghost use Rattle.snap_run.specs.Ends.{IsTaken, is_replay, end_of_result, end_of, EndsAs};
ghost use Rattle.snap_run.specs.Run.{texts, refusal_text, error_text, Runs, IsReport, reading_of, IsVerdict};

use crate::edge::{ReadError, read_input};
use crate::ends::{first_unserved, is_unfinished};
use crate::serve::history_of;
use io_edge::Source;
use plain_types::{History, Script};
use reply_text::{Form, push_number, write_text};
use script_text::{End, ScriptError, parse};
use snap_ids::NoMemory;
use std::alloc::{AllocError, Global};

/// What a run comes to and is to write, if it can be written.
#[derive(Drop)]
pub struct Verdict {
    pub end: End,
    pub history: History,
    pub text: Vec<u8>,
}

/// What running a script's bytes came to.
#[derive(Drop)]
pub struct Report {
    /// The exit status.
    pub status: u8,
    /// How it ended.
    pub end: End,
    /// What happened.
    pub history: History,
    /// The replies, or a line that tells of an error. At want of memory it is empty.
    pub text: Vec<u8>,
}

/// Whether the words are the program's own name and `replay`.
pub fn is_replay(words: &[String]) -> bool
    ensures { result ≡ is_replay (texts words.now) }
{
    match words {
        [_, word] => word.as_bytes() == b"replay".as_slice(),
        _ => false,
    }
}

// Puts a text, a number and another text.
fn push_numbered(
    out: &mut Vec<u8>,
    before: &[u8],
    number: u32,
    behind: &[u8],
) -> Result<(), AllocError>
    ensures { OnOk result (out.new.items ≡ out.old.items ++ before.now ++ decimal number ++ behind.now) }
{
    out.extend_from_slice(before)?;
    push_number(out, u64::from(number))?;
    out.extend_from_slice(behind)
}

// The line that tells why a script is refused.
fn push_refusal(out: &mut Vec<u8>, error: ScriptError) -> Result<(), AllocError>
    ensures { OnOk result (out.new.items ≡ out.old.items ++ refusal_text error) }
{
    match error {
        ScriptError::BadLine(line) => push_numbered(out, b"error line ", line, b" bad\n"),
        ScriptError::TooLong(line) => push_numbered(out, b"error line ", line, b" long\n"),
        ScriptError::Limit(line) => push_numbered(out, b"error line ", line, b" limit\n"),
        ScriptError::Barriers(a, b) => {
            push_numbered(out, b"error barriers ", u32::from(a), b" ")?;
            push_numbered(out, b"", u32::from(b), b"\n")?;
            Ok(())
        }
        ScriptError::NoMemory => Ok(()),
    }
}

// The line that tells of an error.
fn push_error(out: &mut Vec<u8>, end: End) -> Result<(), AllocError>
    ensures { OnOk result (out.new.items ≡ out.old.items ++ error_text end) }
{
    match end {
        End::Usage => out.extend_from_slice(b"error usage\n"),
        End::ScriptRefused(error) => push_refusal(out, error),
        End::ReadFault => out.extend_from_slice(b"error read\n"),
        End::DiskFault => out.extend_from_slice(b"error disk\n"),
        End::ScheduleRefused(line) => push_numbered(out, b"error step ", line, b"\n"),
        End::Unfinished(lines) => push_numbered(out, b"error unfinished ", lines, b"\n"),
        End::Done | End::WriteFault | End::NoMemory => Ok(()),
    }
}

// A run in which no step was made.
fn refused(alloc: Global, end: End) -> Result<Verdict, NoMemory>
    ensures end { IfOk result (λ verdict. verdict.end ≡ end) }
    ensures history { IfOk result (λ verdict. verdict.history ≡ []) }
    ensures text { IfOk result (λ verdict. verdict.text.items ≡ error_text end) }
{
    let mut text = Vec::new(alloc);
    push_error(&mut text, end)?;
    let history = History::new(alloc);
    Ok(Verdict { end, history, text })
}

// Runs a script to its end. Its lines are such that a server takes them.
fn run_script(alloc: Global, input: &[u8], script: &Script) -> Result<Verdict, NoMemory>
    requires spelled { grammar input.now true ≡ Ok script.now }
    requires few { length script.now.lines ≤ 512 }
    requires taken { AllByRecursion IsTaken script.now.lines }
    ensures end { IfOk result (λ verdict. verdict.end ≡ End.Done) }
    ensures runs { IfOk result (λ verdict. Runs input.now verdict.history verdict.text.items) }
{
    let history = history_of(alloc, script.lines.as_slice())?;
    let mut text = Vec::new(alloc);
    write_text(alloc, script, &history, Form::Plain, &mut text)?;
    Ok(Verdict {
        end: End::Done,
        history,
        text,
    })
}

// Runs an input.
fn run_input(alloc: Global, input: &[u8]) -> Result<Verdict, NoMemory>
    ensures end { IfOk result (λ verdict. verdict.end ≡ end_of_result input.now (grammar input.now true)) }
    ensures report { IfOk result (λ verdict.
        IsReport input.now verdict.end verdict.history verdict.text.items) }
    ensures short { IfOk result (λ verdict. verdict.end ≡ End.Done → length input.now ≤ 16777216) }
{
    let script = match parse(alloc, input, true) {
        Ok(script) => script,
        Err(ScriptError::NoMemory) => return Err(NoMemory),
        Err(error) => return refused(alloc, End::ScriptRefused(error)),
    };
    if let Some(line) = first_unserved(input, &script) {
        return refused(alloc, End::ScriptRefused(ScriptError::BadLine(line)));
    }
    if is_unfinished(&script) {
        return refused(alloc, End::Unfinished(script.input_lines));
    }
    run_script(alloc, input, &script)
}

// Runs an input for words.
fn verdict_on(alloc: Global, words: &[String], input: &[u8]) -> Result<Verdict, NoMemory>
    ensures end { IfOk result (λ verdict. verdict.end ≡ end_of (texts words.now) input.now) }
    ensures report { IfOk result (λ verdict.
        IsReport input.now verdict.end verdict.history verdict.text.items) }
{
    if !is_replay(words) {
        return refused(alloc, End::Usage);
    }
    run_input(alloc, input)
}

/// Runs the program on bytes: `words` are its words, with its own name first, and must be exactly `replay`; `input` is
/// the script. The report says how it ended, with the exit status, what happened, and the text: the replies, or a line
/// that tells of an error. Want of memory, status 7, may come in place of any other end; then there is no text, and
/// nothing happened.
pub fn run_bytes(alloc: Global, words: &[String], input: &[u8]) -> Report
    ensures status { result.status ≡ status_of result.end }

    // Words and input come to one end.
    ensures end { EndsAs (end_of (texts words.now) input.now) result.end }

    // Each reply is the plain tree's, and the text is that of all replies.
    ensures done { result.end ≡ End.Done → Runs input.now result.history result.text.items }

    // Nothing happened, and the text is the line that tells of the error.
    ensures other { result.end ≢ End.Done
        → (result.history ≡ []) × (result.text.items ≡ error_text result.end) }
{
    match verdict_on(alloc, words, input) {
        Ok(Verdict { end, history, text }) => Report {
            status: end.status(),
            end,
            history,
            text,
        },
        Err(NoMemory) => Report {
            status: End::NoMemory.status(),
            end: End::NoMemory,
            history: History::new(alloc),
            text: Vec::new(alloc),
        },
    }
}

/// What the run comes to. Want of memory is the only way to fail.
pub fn verdict_of<S: Source>(
    alloc: Global,
    words: &[String],
    source: &mut S,
) -> Result<Verdict, NoMemory>
    ensures verdict { IfOk result (λ verdict. IsVerdict (texts words.now)
        (reading_of S.left S.faults source.old source.new)
        verdict.end verdict.history verdict.text.items) }
    ensures unread { is_replay (texts words.now) ≡ false → source.new ≡ source.old }
{
    if !is_replay(words) {
        return refused(alloc, End::Usage);
    }
    match read_input(alloc, source) {
        Ok(input) => run_input(alloc, &input),
        Err(ReadError::Failed) => refused(alloc, End::ReadFault),
        Err(ReadError::NoMemory) => Err(NoMemory),
    }
}
