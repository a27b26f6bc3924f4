// Answers as text.
ghost use Rattle.std.specs.Prelude.{◌≡◌, ◌++◌, flat_map, OnOk};
ghost use Rattle.reply_text.specs.Answer.{word, entry_text, more_text, ids_text, clone_text, head_text, bytes_text, answer_text};
ghost use Rattle.reply_text.specs.Plain.{IsPlain, IsPlainInside};

use crate::number::{push_bytes, push_counted, push_mode, push_number};
use plain_types::{Answer, Refusal};
use snap_ids::{CloneList, Ids, Ino, Kind, Name, SnapContext, SnapId};
use std::alloc::{AllocError, Global};

// The word of a refusal.
fn word(refusal: Refusal) -> &'static [u8]
    ensures { result.now ≡ word refusal }
{
    match refusal {
        Refusal::BadName => b"bad-name",
        Refusal::Exists => b"exists",
        Refusal::NoEntry => b"no-entry",
        Refusal::NotDir => b"not-dir",
        Refusal::IsDir => b"is-dir",
        Refusal::NotEmpty => b"not-empty",
        Refusal::HasSnapshots => b"has-snapshots",
        Refusal::ReadOnly => b"read-only",
        Refusal::NoSnap => b"no-snap",
        Refusal::BadHandle => b"bad-handle",
        Refusal::IntoItself => b"into-itself",
        Refusal::TooLarge => b"too-large",
        Refusal::TooManySnaps => b"too-many-snaps",
        Refusal::TooManyLive => b"too-many-live",
    }
}

fn push_entry(out: &mut Vec<u8>, entry: &(Name, Kind)) -> Result<(), AllocError>
    ensures pushed { OnOk result (out.new.items ≡ out.old.items ++ entry_text entry.now) }
    ensures plain { OnOk result (IsPlain (entry_text entry.now)) }
{
    out.push(b' ')?;
    out.extend_from_slice(entry.0.as_bytes())?;
    match entry.1 {
        Kind::Dir => out.push(b'/')?,
        Kind::File => (),
    }
    Ok(())
}

fn push_entries(out: &mut Vec<u8>, entries: &[(Name, Kind)]) -> Result<(), AllocError>
    ensures pushed { OnOk result (out.new.items ≡ out.old.items
        ++ flat_map entry_text entries.now) }
    ensures plain { OnOk result (IsPlain (flat_map entry_text entries.now)) }
{
    for entry in entries {
        push_entry(out, entry)?;
    }
    Ok(())
}

// Puts some ids behind others.
fn push_more(out: &mut Vec<u8>, ids: &[SnapId]) -> Result<(), AllocError>
    ensures { OnOk result (out.new.items ≡ out.old.items ++ flat_map more_text ids.now) }
{
    for id in ids {
        out.push(b',')?;
        push_number(out, id.0)?;
    }
    Ok(())
}

fn push_ids(out: &mut Vec<u8>, ids: &[SnapId]) -> Result<(), AllocError>
    ensures { OnOk result (out.new.items ≡ out.old.items ++ ids_text ids.now) }
{
    match ids.split_first() {
        None => out.extend_from_slice(b"-"),
        Some((first, rest)) => {
            push_number(out, first.0)?;
            push_more(out, rest)
        }
    }
}

fn push_clone(out: &mut Vec<u8>, clone: &(SnapId, Ids)) -> Result<(), AllocError>
    ensures { OnOk result (out.new.items ≡ out.old.items ++ clone_text clone.now) }
{
    out.push(b' ')?;
    push_number(out, clone.0.0)?;
    out.push(b':')?;
    push_ids(out, clone.1.as_slice())
}

fn push_clones(out: &mut Vec<u8>, clones: &[(SnapId, Ids)]) -> Result<(), AllocError>
    ensures { OnOk result (out.new.items ≡ out.old.items ++ flat_map clone_text clones.now) }
{
    for clone in clones {
        push_clone(out, clone)?;
    }
    Ok(())
}

fn push_head(out: &mut Vec<u8>, head: Option<u32>) -> Result<(), AllocError>
    ensures { OnOk result (out.new.items ≡ out.old.items ++ head_text head) }
{
    match head {
        None => out.extend_from_slice(b" none"),
        Some(size) => push_counted(out, b" head ", u64::from(size)),
    }
}

fn push_file(out: &mut Vec<u8>, mode: u16, size: u32) -> Result<(), AllocError>
    ensures { OnOk result (out.new.items ≡ out.old.items
        ++ answer_text (Answer.StatFile mode size)) }
{
    out.extend_from_slice(b"stat file ")?;
    push_mode(out, mode)?;
    push_counted(out, b" ", u64::from(size))
}

fn push_dir(out: &mut Vec<u8>, mode: u16) -> Result<(), AllocError>
    ensures { OnOk result (out.new.items ≡ out.old.items ++ answer_text (Answer.StatDir mode)) }
{
    out.extend_from_slice(b"stat dir ")?;
    push_mode(out, mode)
}

fn push_list(out: &mut Vec<u8>, entries: &[(Name, Kind)]) -> Result<(), AllocError>
    ensures pushed { OnOk result (out.new.items ≡ out.old.items
        ++ answer_text (Answer.Listed entries.now)) }
    ensures plain { OnOk result (IsPlain (flat_map entry_text entries.now)) }
{
    out.extend_from_slice(b"list")?;
    push_entries(out, entries)
}

fn push_realm(out: &mut Vec<u8>, ino: Ino, context: &SnapContext) -> Result<(), AllocError>
    ensures { OnOk result (out.new.items ≡ out.old.items
        ++ answer_text (Answer.RealmIs ino context.now)) }
{
    push_counted(out, b"realm ", ino.0)?;
    push_counted(out, b" seq ", context.seq().0)?;
    out.extend_from_slice(b" ids ")?;
    push_ids(out, context.ids())
}

fn push_object(out: &mut Vec<u8>, list: &CloneList) -> Result<(), AllocError>
    ensures { OnOk result (out.new.items ≡ out.old.items
        ++ answer_text (Answer.ClonesAre list.now)) }
{
    out.extend_from_slice(b"clones")?;
    push_clones(out, list.clones.as_slice())?;
    push_head(out, list.head)
}

fn push_content(alloc: Global, out: &mut Vec<u8>, bytes: &[u8]) -> Result<(), AllocError>
    ensures pushed { OnOk result (out.new.items ≡ out.old.items
        ++ answer_text (Answer.FileBytes bytes.now)) }
    ensures plain { OnOk result (IsPlain (bytes_text bytes.now)) }
{
    out.extend_from_slice(b"bytes ")?;
    push_bytes(alloc, out, bytes)
}

// Puts an answer behind a text.
pub(crate) fn push_answer(
    alloc: Global,
    out: &mut Vec<u8>,
    answer: &Answer,
) -> Result<(), AllocError>
    ensures pushed { OnOk result (out.new.items ≡ out.old.items ++ answer_text answer.now) }
    ensures plain { OnOk result (IsPlainInside answer.now) }
{
    match answer {
        Answer::Done => out.extend_from_slice(b"ok"),
        Answer::Snap(id) => push_counted(out, b"ok snap ", id.0),
        Answer::Opened(_) => out.extend_from_slice(b"ok"),
        Answer::Refused(refusal) => out.extend_from_slice(word(*refusal)),
        Answer::Pending(client) => push_counted(out, b"pending ", u64::from(*client)),
        Answer::Gone => out.extend_from_slice(b"gone"),
        Answer::FileBytes(bytes) => push_content(alloc, out, bytes.as_slice()),
        Answer::StatFile(mode, size) => push_file(out, *mode, *size),
        Answer::StatDir(mode) => push_dir(out, *mode),
        Answer::Listed(entries) => push_list(out, entries.as_slice()),
        Answer::RealmIs(ino, context) => push_realm(out, *ino, context),
        Answer::ClonesAre(list) => push_object(out, list),
        Answer::FoundLive { .. } | Answer::FoundSnap { .. } | Answer::FoundObject { .. } => {
            out.extend_from_slice(b"found")
        }
    }
}
