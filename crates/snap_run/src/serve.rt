// How the server answers a line, and the event that this is.
ghost use Rattle.std.specs.Prelude.{◌≡◌, ◌≤◌, ◌<◌, ◌^◌, ◌++◌, true, [], length, List, IfOk};
ghost use Rattle.std.specs.List.{AllByRecursion};
ghost use Rattle.plain_types.specs.declared.entry.Entry.{Entry as Written};
ghost use Rattle.plain_tree.specs.Line.{request_of, answer_to};
ghost use Rattle.plain_journal.specs.Entries.{change_in};
ghost use Rattle.plain_journal.specs.Legal.{is_given};
ghost use Rattle.direct_journal.specs.Direct.{told, IsServedBy, ServesAfter};
ghost use Rattle.direct_journal.specs.Journal.{entries_in, next_snap};
ghost use Rattle.direct_journal.specs.Legal.{numbered, effects_of};
ghost use Rattle.direct_journal.specs.Served.{is_served};
ghost use Rattle.meta_state.specs.Stands.{StandsFor, IsState};
ghost use Rattle.snap_run.specs.Ends.{IsTaken};
ghost use Rattle.snap_run.specs.Event.{event_of, event_with, answer_for, made_by, said_by};

use meta_state::{Decision, MetaState};
use plain_types::{
    Answer, Change, Effect, Effects, Event, History, Line, Refusal, Replied, Replies, Request,
    Sending, Step, What,
};
use snap_ids::{NoMemory, SnapId};
use std::alloc::Global;

// What the server is asked for a line; None where the line is its client's own.
fn request_of(line: &Line) -> Result<Option<Request>, NoMemory>
    ensures { IfOk result (λ asked. asked ≡ request_of line.now) }
{
    match line {
        Line::Mkdir { path } => Ok(Some(Request::Mkdir {
            path: path.clone()?,
        })),
        Line::Rmdir { path } => Ok(Some(Request::Rmdir {
            path: path.clone()?,
        })),
        Line::Create { path, mode } => Ok(Some(Request::Create {
            path: path.clone()?,
            mode: *mode,
        })),
        Line::Unlink { path } => Ok(Some(Request::Unlink {
            path: path.clone()?,
        })),
        Line::Link { path, target } => Ok(Some(Request::Link {
            path: path.clone()?,
            target: target.clone()?,
        })),
        Line::Rename { path, target } => Ok(Some(Request::Rename {
            path: path.clone()?,
            target: target.clone()?,
        })),
        Line::Chmod { path, mode } => Ok(Some(Request::Chmod {
            path: path.clone()?,
            mode: *mode,
        })),
        Line::Open {
            handle,
            path,
            writable,
        } => Ok(Some(Request::Open {
            handle: *handle,
            path: path.clone()?,
            writable: *writable,
        })),
        Line::Close { handle } => Ok(Some(Request::Close { handle: *handle })),
        Line::Cat { path } => Ok(Some(Request::Cat {
            path: path.clone()?,
        })),
        Line::Stat { path } => Ok(Some(Request::Stat {
            path: path.clone()?,
        })),
        Line::List { path } => Ok(Some(Request::List {
            path: path.clone()?,
        })),
        Line::Realm { path } => Ok(Some(Request::Realm {
            path: path.clone()?,
        })),
        Line::Clones { path, index } => Ok(Some(Request::Clones {
            path: path.clone()?,
            index: *index,
        })),
        _ => Ok(None),
    }
}

// The change that an entry says.
fn change_in(what: What) -> Option<Change>
    ensures { result ≡ change_in what }
{
    let change = match what {
        What::Mkdir { dir, name, ino } => Change::Mkdir { dir, name, ino },
        What::Create {
            dir,
            name,
            ino,
            mode,
        } => Change::Create {
            dir,
            name,
            ino,
            mode,
        },
        What::Link { ino, dir, name } => Change::Link { ino, dir, name },
        What::Unlink { dir, name } => Change::Unlink { dir, name },
        What::Rmdir { dir, name } => Change::Rmdir { dir, name },
        What::Rename {
            dir,
            name,
            to_dir,
            to_name,
        } => Change::Rename {
            dir,
            name,
            to_dir,
            to_name,
        },
        What::Chmod { ino, mode } => Change::Chmod { ino, mode },
        What::OpenFile {
            handle,
            ino,
            writable,
        } => Change::OpenFile {
            handle,
            ino,
            writable,
        },
        What::CloseFile { handle } => Change::CloseFile { handle },
        What::Mksnap { id, dir, name } => Change::Mksnap { id, dir, name },
        What::Rmsnap { id } => Change::Rmsnap { id },
        _ => return None,
    };
    Some(change)
}

// The answer to a change.
fn answer_for(made: &Option<Change>) -> Answer
    ensures { result ≡ answer_for made.now }
{
    match made {
        Some(Change::Mksnap { id, .. }) => Answer::Snap(*id),
        Some(Change::OpenFile { ino, .. }) => Answer::Opened(*ino),
        _ => Answer::Done,
    }
}

// What a client is told of an answer: of a live file that is found its mode, and that it has no byte.
fn told(answer: Answer) -> Answer
    ensures { result ≡ told answer }
{
    match answer {
        Answer::FoundLive { perm, .. } => Answer::StatFile(perm, 0),
        answer => answer,
    }
}

// The effects of a change.
fn effects_of(
    alloc: Global,
    client: u8,
    entries: u64,
    made: Option<Change>,
) -> Result<Effects, NoMemory>
    requires { entries < 2 ^ 62 }
    ensures { IfOk result (λ effects. effects ≡ effects_of client entries made) }
{
    let Some(change) = made else {
        return Ok(Effects::new(alloc));
    };
    let mut effects = Vec::with_capacity(alloc, 1)?;
    effects.push(Effect {
        client,
        entry: entries + 1,
        change,
    })?;
    Ok(Effects::from_vec(effects))
}

// The event of a line that makes this change and is told so.
fn event_of(
    alloc: Global,
    client: u8,
    number: u32,
    entries: u64,
    made: Option<Change>,
    said: Answer,
) -> Result<Event, NoMemory>
    requires { entries < 2 ^ 62 }
    ensures { IfOk result (λ event. event ≡ event_of client number entries made said) }
{
    let reply = Replied {
        client,
        line: number,
        changed: made.is_some(),
        entry: entries,
        answer: said,
    };
    let effects = effects_of(alloc, client, entries, made)?;
    let mut replies = Vec::with_capacity(alloc, 1)?;
    replies.push(reply)?;
    Ok(Event {
        node: client,
        step: Step::Op(client),
        taken: None,
        sent: Sending::new(alloc),
        effects,
        replies: Replies::from_vec(replies),
    })
}

// The event of a decision.
fn event_for(
    alloc: Global,
    client: u8,
    number: u32,
    entries: u64,
    decision: Decision,
) -> Result<Event, NoMemory>
    requires { entries < 2 ^ 62 }
    ensures { IfOk result (λ event. event ≡ event_of client number entries (made_by decision) (said_by decision)) }
{
    match decision {
        Decision::Put(entry) => {
            let made = change_in(entry.what);
            let said = answer_for(&made);
            event_of(alloc, client, number, entries, made, said)
        }
        Decision::Say(answer) => event_of(alloc, client, number, entries, None, told(answer)),
    }
}

// The id that the next snapshot gets. No id reaches 2^62.
fn next_snap(meta: &MetaState) -> Result<SnapId, NoMemory>
    ensures next { IfOk result (λ id. (entries : List Written) → StandsFor meta.now entries → id ≡ next_snap entries) }
    ensures given { IfOk result (λ id. is_given id ≡ true) }
{
    let applied = meta.realms().applied();
    if applied.0 >= 4_611_686_018_427_387_903 {
        return Err(NoMemory);
    }
    Ok(SnapId(applied.0 + 1))
}

/// Answers a line of a client, its number-th, and makes its change. The line is one that is served. At want of memory the
/// state may only be dropped.
fn serve(
    meta: &mut MetaState,
    alloc: Global,
    client: u8,
    number: u32,
    line: &Line,
) -> Result<Event, NoMemory>
    requires state { IsState meta.old }
    requires taken { is_served line.now ≡ true }
    ensures served { IfOk result (λ event. (entries : List Written) → StandsFor meta.old entries
        → IsServedBy entries (record { client = client; number = number; line = line.now }) event) }
    ensures stands { IfOk result (λ event. (entries : List Written) → StandsFor meta.old entries
        → StandsFor meta.new (entries ++ entries_in event)) }
{
    let entries = meta.entries();
    let id = next_snap(meta)?;
    let Some(request) = request_of(line)? else {
        let said = Answer::Refused(Refusal::ReadOnly);
        return event_of(alloc, client, number, entries, None, said);
    };
    let decision = meta.decide(client, u64::from(number), &request, id)?;
    if let Decision::Put(entry) = &decision {
        meta.apply(entry)?;
    }
    event_for(alloc, client, number, entries, decision)
}

/// The history of a script's lines, each answered after the ones before it. They are lines of client 1 that are served.
pub fn history_of(alloc: Global, lines: &[(u8, Line)]) -> Result<History, NoMemory>
    requires few { length lines.now ≤ 512 }
    requires taken { AllByRecursion IsTaken lines.now }
    ensures { IfOk result (λ history. ServesAfter [] (numbered lines.now) history) }
{
    let mut meta = MetaState::new(alloc)?;
    let mut events = Vec::with_capacity(alloc, lines.len())?;
    for (i, (client, line)) in lines.iter().enumerate() {
        let number = i as u32 + 1;
        events.push(serve(&mut meta, alloc, *client, number, line)?)?;
    }
    Ok(History::from_vec(events))
}
