// What a run came to, counted.
ghost use Rattle.std.specs.Prelude.{◌≡◌, ◌<◌, ◌++◌, length, map, OnOk, IfOk};
ghost use Rattle.std.specs.List.{count_by};
ghost use Rattle.snap_ids.specs.Path.{place_of, place_said};
ghost use Rattle.reply_text.specs.Lists.{HasEach};
ghost use Rattle.reply_text.specs.Summary.{is_snap, is_done, is_refused, is_snapshot, removes, lines_of, removes_at, is_removal, summary_text};

use crate::lists::empty_lists;
use crate::number::push_count;
use plain_types::{Answer, Line, Replied, Script};
use snap_ids::{Path, Target};
use std::alloc::{AllocError, Global};

fn is_snap(answer: &Answer) -> bool
    ensures { result ≡ is_snap answer.now }
{
    matches!(answer, Answer::Snap(_))
}

fn is_done(answer: &Answer) -> bool
    ensures { result ≡ is_done answer.now }
{
    matches!(answer, Answer::Done)
}

fn is_refused(answer: &Answer) -> bool
    ensures { result ≡ is_refused answer.now }
{
    matches!(
        answer,
        Answer::Refused(_) | Answer::Pending(_) | Answer::Gone
    )
}

// Whether a path leads to a snapshot.
fn is_snapshot(path: &Path) -> bool
    ensures { result ≡ is_snapshot (place_of path.now) }
{
    match path.target() {
        Target::InSnap(_, _, rest) => rest.is_empty(),
        _ => false,
    }
}

fn removes(line: &Line) -> bool
    ensures { result ≡ removes line.now }
{
    match line {
        Line::Rmdir { path } => is_snapshot(path),
        _ => false,
    }
}

// For each number that a client can have its lines, in their order.
fn lines_by_client<'a>(
    alloc: Global,
    lines: &'a [(u8, Line)],
) -> Result<Vec<Vec<&'a Line>>, AllocError>
    ensures { IfOk result (λ lists.
        HasEach (map (λ list. map (λ line. line.now) list.items) lists.items)
        (lines_of lines.now)) }
{
    let mut lists = empty_lists(alloc)?;
    for asked in lines {
        lists[usize::from(asked.0)].push(&asked.1)?;
    }
    Ok(lists)
}

// Whether the line of this number, from 1, asks to remove a snapshot.
fn removes_at(lines: &[&Line], number: u32) -> bool
    ensures { result ≡ removes_at (map (λ line. line.now) lines.now) number }
{
    if number == 0 {
        return false;
    }
    match lines.get(number as usize - 1) {
        Some(line) => removes(line),
        None => false,
    }
}

fn count_snaps(replies: &[&Replied]) -> usize
    ensures { result ≡ count_by (λ reply. is_snap reply.answer)
        (map (λ reply. reply.now) replies.now) }
{
    replies
        .iter()
        .filter(|reply| is_snap(&reply.answer))
        .count()
}

fn count_refused(replies: &[&Replied]) -> usize
    ensures { result ≡ count_by (λ reply. is_refused reply.answer)
        (map (λ reply. reply.now) replies.now) }
{
    replies
        .iter()
        .filter(|reply| is_refused(&reply.answer))
        .count()
}

// How many of the replies say that a snapshot was removed.
fn count_removed(
    alloc: Global,
    lines: &[(u8, Line)],
    replies: &[&Replied],
) -> Result<usize, AllocError>
    ensures { IfOk result (λ count.
        count ≡ count_by (is_removal lines.now) (map (λ reply. reply.now) replies.now)) }
{
    let lists = lines_by_client(alloc, lines)?;
    let mut count = 0;
    for reply in replies {
        if is_done(&reply.answer) && removes_at(&lists[usize::from(reply.client)], reply.line) {
            count += 1;
        }
    }
    Ok(count)
}

// Puts what the run came to behind a text.
pub(crate) fn push_summary(
    alloc: Global,
    out: &mut Vec<u8>,
    script: &Script,
    replies: &[&Replied],
) -> Result<(), AllocError>
    ensures { OnOk result (out.new.items ≡ out.old.items
        ++ summary_text script.now (map (λ reply. reply.now) replies.now)) }
{
    push_count(out, b"clients", u64::from(script.clients))?;
    push_count(out, b"lines", script.lines.len() as u64)?;
    push_count(out, b"snapshots", count_snaps(replies) as u64)?;
    let removed = count_removed(alloc, script.lines.as_slice(), replies)?;
    push_count(out, b"removed", removed as u64)?;
    push_count(out, b"refused", count_refused(replies) as u64)?;
    out.extend_from_slice(b"done\n")?;
    Ok(())
}
