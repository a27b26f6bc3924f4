// The forms in which a run is printed.
ghost use Rattle.std.specs.Prelude.{◌≡◌, ◌++◌, map, codes, flat_map, OnOk, OnErr, IfOk};
ghost use Rattle.reply_text.specs.Reply.{plain_reply};
ghost use Rattle.reply_text.specs.Text.{plain_text, text};

use crate::answer::push_answer;
use crate::number::push_number;
use crate::objects::push_json;
use crate::order::printed;
use crate::steps::push_steps;
use crate::summary::push_summary;
use plain_types::{History, Replied, Script};
use snap_ids::NoMemory;
use std::alloc::{AllocError, Global};

/// How a run is printed.
#[derive(Clone, Copy, Debug, PartialEq, Eq, Hash)]
pub enum Form {
    /// A line for each reply, and `done`.
    Plain,
    /// A JSON object for each reply, and a last one.
    Json,
    /// The script as it was read, and the steps that were made as its schedule.
    Steps,
    /// How many clients and lines there were, snapshots made and removed, and refusals.
    Summary,
}

fn push_plain_reply(alloc: Global, out: &mut Vec<u8>, reply: &Replied) -> Result<(), AllocError>
    ensures { OnOk result (out.new.items ≡ out.old.items ++ plain_reply reply.now) }
{
    push_number(out, u64::from(reply.client))?;
    out.push(b'.')?;
    push_number(out, u64::from(reply.line))?;
    out.push(b' ')?;
    push_answer(alloc, out, &reply.answer)?;
    out.push(b'\n')?;
    Ok(())
}

fn push_plain(alloc: Global, out: &mut Vec<u8>, replies: &[&Replied]) -> Result<(), AllocError>
    ensures { OnOk result (out.new.items ≡ out.old.items
        ++ plain_text (map (λ reply. reply.now) replies.now)) }
{
    for reply in replies {
        push_plain_reply(alloc, out, reply)?;
    }
    out.extend_from_slice(b"done\n")
}

// The text of a run.
fn text_of(
    alloc: Global,
    script: &Script,
    history: &History,
    form: Form,
) -> Result<Vec<u8>, AllocError>
    ensures { IfOk result (λ made. made.items ≡ text script.now history.now form) }
{
    let mut out = Vec::new(alloc);
    match form {
        Form::Plain => push_plain(alloc, &mut out, &printed(alloc, script, history)?)?,
        Form::Json => push_json(alloc, &mut out, &printed(alloc, script, history)?)?,
        Form::Steps => push_steps(alloc, &mut out, script, history)?,
        Form::Summary => push_summary(alloc, &mut out, script, &printed(alloc, script, history)?)?,
    }
    Ok(out)
}

/// Puts the text of a run behind what `out` has. The replies come by rising client, and a client's
/// by rising line; those to clients that the script doesn't have are not printed, and a legal
/// history has none. Where there is no memory, `out` stays as it was.
pub fn write_text(
    alloc: Global,
    script: &Script,
    history: &History,
    form: Form,
    out: &mut Vec<u8>,
) -> Result<(), NoMemory>
    ensures ok { OnOk result (out.new.items ≡ out.old.items ++ text script.now history.now form) }
    ensures err { OnErr result (out.new.items ≡ out.old.items) }
{
    let made = text_of(alloc, script, history, form)?;
    if out.is_empty() {
        *out = made;
        return Ok(());
    }
    out.extend_from_slice(&made)?;
    Ok(())
}
