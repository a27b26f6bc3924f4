// What entries say of changes.
ghost use Rattle.std.specs.Prelude.{◌≡◌, ◌+◌, ◌++◌, ◌<◌, true, IfOk, OnOk};
ghost use Rattle.plain_journal.specs.Entries.{change_in};
ghost use Rattle.plain_journal.specs.Table.{is_flush, operation_by, effects_from, effect_of};
ghost use Rattle.server_sessions.specs.Calls.{noted};
ghost use Rattle.mds_state.specs.Written.{next_by, removed_in};

use plain_types::{Answer, Change, Effect, Effects, Entry, What};
use session_link::Session;
use snap_ids::{NoMemory, SnapId};
use std::alloc::Global;

// What is counted stays below 2^62.
const MOST: u64 = 4611686018427387903;

// A count and one more.
pub(crate) fn one_more(count: u64) -> Result<u64, NoMemory>
    ensures { IfOk result (λ more. more ≡ count + 1) }
{
    if count >= MOST {
        return Err(NoMemory);
    }
    Ok(count + 1)
}

// The change that an entry says.
pub(crate) fn change_of(what: What) -> Option<Change>
    ensures { result ≡ change_in what }
{
    let change = match what {
        What::Mkdir { dir, name, ino } => Change::Mkdir { dir, name, ino },
        What::Create {
            dir,
            name,
            ino,
            mode,
        } => Change::Create {
            dir,
            name,
            ino,
            mode,
        },
        What::Link { ino, dir, name } => Change::Link { ino, dir, name },
        What::Unlink { dir, name } => Change::Unlink { dir, name },
        What::Rmdir { dir, name } => Change::Rmdir { dir, name },
        What::Rename {
            dir,
            name,
            to_dir,
            to_name,
        } => Change::Rename {
            dir,
            name,
            to_dir,
            to_name,
        },
        What::Chmod { ino, mode } => Change::Chmod { ino, mode },
        What::OpenFile {
            handle,
            ino,
            writable,
        } => Change::OpenFile {
            handle,
            ino,
            writable,
        },
        What::CloseFile { handle } => Change::CloseFile { handle },
        What::Mksnap { id, dir, name } => Change::Mksnap { id, dir, name },
        What::Rmsnap { id } => Change::Rmsnap { id },
        What::PrepareCreate { .. }
        | What::PrepareDestroy { .. }
        | What::Rollback { .. }
        | What::Settle { .. }
        | What::Release { .. }
        | What::Trim { .. }
        | What::Purgedone { .. }
        | What::Deadfile { .. }
        | What::Barrier { .. } => return None,
    };
    Some(change)
}

// A client's session after one of its entries.
pub(crate) fn note(session: &mut Session, entry: &Entry)
    requires { is_flush entry.now.what ≡ true → session.old.last_flush < entry.now.number }
    ensures { session.new ≡ noted entry.now session.old }
{
    match &entry.what {
        What::Settle { .. } | What::Release { .. } => session.flush_taken(entry.number),
        What::Mksnap { id, .. } => session.had_effect(entry.number, Answer::Snap(*id)),
        What::OpenFile { ino, .. } => session.had_effect(entry.number, Answer::Opened(*ino)),
        What::Mkdir { .. }
        | What::Create { .. }
        | What::Link { .. }
        | What::Unlink { .. }
        | What::Rmdir { .. }
        | What::Rename { .. }
        | What::Chmod { .. }
        | What::CloseFile { .. }
        | What::Rmsnap { .. } => session.had_effect(entry.number, Answer::Done),
        What::PrepareCreate { .. }
        | What::PrepareDestroy { .. }
        | What::Rollback { .. }
        | What::Trim { .. }
        | What::Purgedone { .. }
        | What::Deadfile { .. }
        | What::Barrier { .. } => {}
    }
}

// The next id of a snapshot after an entry.
pub(crate) fn next_after(next: u64, what: &What) -> Result<u64, NoMemory>
    ensures { IfOk result (λ id. id ≡ next_by what.now next) }
{
    match what {
        What::PrepareCreate { .. } => one_more(next),
        _ => Ok(next),
    }
}

// The operation that is outstanding after an entry of this number.
pub(crate) fn operation_after(
    before: Option<(SnapId, u64)>,
    number: u64,
    what: &What,
) -> Option<(SnapId, u64)>
    ensures { result ≡ operation_by what.now number before }
{
    match what {
        What::PrepareCreate { id } => Some((*id, number)),
        What::PrepareDestroy { id } => Some((*id, number)),
        What::Mksnap { .. } | What::Rmsnap { .. } | What::Rollback { .. } => None,
        _ => before,
    }
}

// Puts the id that an entry removes behind others, if it does.
pub(crate) fn note_removed(removing: &mut Vec<SnapId>, what: &What) -> Result<(), NoMemory>
    ensures { OnOk result (removing.new.items ≡ removing.old.items ++ removed_in what.now) }
{
    if let What::Rmsnap { id } = what {
        removing.push(*id)?;
    }
    Ok(())
}

// Puts the effect of an entry of this number behind others, if it says a change.
fn push_effect(effects: &mut Vec<Effect>, number: u64, entry: Entry) -> Result<(), NoMemory>
    ensures { OnOk result (effects.new.items
        ≡ effects.old.items ++ effect_of number entry (change_in entry.what)) }
{
    let client = entry.client;
    if let Some(change) = change_of(entry.what) {
        effects.push(Effect {
            client,
            entry: number,
            change,
        })?;
    }
    Ok(())
}

/// The effects of entries that become durable behind so many. It fails only with `NoMemory`.
pub fn effects_of(alloc: Global, durable: u64, entries: Vec<Entry>) -> Result<Effects, NoMemory>
    ensures { IfOk result (λ effects. effects ≡ effects_from (durable + 1) entries.items) }
{
    let mut effects = Vec::new(alloc);
    let mut number = one_more(durable)?;
    for entry in entries {
        push_effect(&mut effects, number, entry)?;
        number = one_more(number)?;
    }
    Ok(Effects::from_vec(effects))
}
