// What comes of the answer to the open request.
ghost use Rattle.std.specs.Prelude.{◌≡◌, ◌||◌, true, not, None, IfOk};
ghost use Rattle.std.specs.List.{list_any};
ghost use Rattle.held_files.specs.Files.{is_ino, is_writer};
ghost use Rattle.step_table.specs.ClientState.{Idle, edit_of, replies};
ghost use Rattle.step_table.specs.ClientTakes.{found, with_found, takes_answer, take_answer, handles_after, is_success};
ghost use Rattle.client_state.specs.Acts.{row_of, edit_asked};
ghost use Rattle.client_takes.specs.Takes.{found_again};

use crate::asked::{Asked, is_success, wants_bytes};
use client_state::{Acted, ClientState};
use plain_types::{Answer, Inos, Stamp, ToStore};
use snap_ids::{Ino, NoMemory};

// A live file that was found, as the server answers it.
#[derive(Clone, Copy)]
struct Found {
    ino: Ino,
    perm: u16,
    size: u32,
    write_held: bool,
}

// Whether a file is among those that were let go.
fn was_let_go(let_go: &Inos, ino: Ino) -> bool
    ensures { result ≡ list_any (is_ino ino) let_go.now }
{
    let_go.as_slice().iter().any(|file| ino.0 == file.0)
}

// `cat` goes on with the store, and `stat` needs no bytes.
fn with_found(
    client: &mut ClientState,
    asked: &Asked,
    entry: u64,
    ino: Ino,
    perm: u16,
) -> Result<Acted, NoMemory>
    requires { client.old.under ≡ Idle }
    ensures { IfOk result (λ acted. row_of client.new acted ≡ with_found client.old asked.now.number asked.now.request entry ino perm) }
{
    if wants_bytes(&asked.request) {
        return client.read_head(asked.number, entry, ino);
    }
    let size = client.size_of(ino);
    client.reply(asked.number, false, entry, Answer::StatFile(perm, size))
}

// The file that was found live, where the client let it go since it asked.
fn found_again(let_go: &Inos, said: &Answer) -> Option<Ino>
    ensures { result ≡ found_again let_go.now said.now }
{
    match said {
        Answer::FoundLive { ino, .. } => {
            if was_let_go(let_go, *ino) {
                Some(*ino)
            } else {
                None
            }
        }
        _ => None,
    }
}

// A live file was found: it is held for Read, unless the client writes it.
fn take_found(
    client: &mut ClientState,
    asked: &Asked,
    stamp: Stamp,
    file: Found,
) -> Result<Acted, NoMemory>
    requires idle { client.old.under ≡ Idle }
    requires free { file.write_held || not (is_writer file.ino client.old.files) ≡ true }
    ensures { IfOk result (λ acted. row_of client.new acted
        ≡ with_found (found client.old file.ino file.size stamp.snap file.write_held) asked.now.number asked.now.request
        stamp.entry file.ino file.perm) }
{
    client.find(file.ino, file.size, stamp.snap, file.write_held)?;
    with_found(client, asked, stamp.entry, file.ino, file.perm)
}

// The line is done: it gets its reply, and what is open is as the answer says.
fn finish(
    client: &mut ClientState,
    asked: &Asked,
    entry: u64,
    said: Answer,
) -> Result<Acted, NoMemory>
    ensures { IfOk result (λ acted. row_of client.new acted
        ≡ replies (record client.old { handles = handles_after client.old said asked.now.request })
        asked.now.number (is_success asked.now.request said) entry said) }
{
    let changed = is_success(&asked.request, &said);
    client.answered(&said, &asked.request)?;
    client.reply(asked.number, changed, entry, said)
}

// An answer is taken that isn't a file which was let go.
fn take_answer(
    client: &mut ClientState,
    asked: &Asked,
    stamp: Stamp,
    said: Answer,
) -> Result<Acted, NoMemory>
    requires idle { client.old.under ≡ Idle }
    requires taken { takes_answer client.old said ≡ true }
    requires kept { found_again asked.now.let_go said ≡ None }
    ensures { IfOk result (λ acted. row_of client.new acted
        ≡ take_answer client.old asked.now.number asked.now.line asked.now.request asked.now.let_go stamp said) }
{
    let key = asked.number;
    match said {
        Answer::FoundLive {
            ino,
            perm,
            size,
            write_held,
        } => {
            let file = Found {
                ino,
                perm,
                size,
                write_held,
            };
            take_found(client, asked, stamp, file)
        }
        Answer::FoundSnap { ino, snap, size } => {
            let order = ToStore::ReadSnap {
                key,
                ino,
                size,
                snap,
            };
            client.read_from_store(key, stamp.entry, ino, order)
        }
        Answer::FoundObject { ino, index } => {
            let order = ToStore::ListClones { key, ino, index };
            client.read_from_store(key, stamp.entry, ino, order)
        }
        said => finish(client, asked, stamp.entry, said),
    }
}

/// The answer to the open request is taken, when nothing is under way any more. A file that the client let go since it asked
/// is let go again, and the client asks anew.
pub(crate) fn take_line(
    client: &mut ClientState,
    asked: Asked,
    stamp: Stamp,
    said: Answer,
) -> Result<Acted, NoMemory>
    requires idle { client.old.under ≡ Idle }
    requires fits { edit_asked (edit_of asked.line) asked.request ≡ true }
    requires taken { takes_answer client.old said ≡ true }
    ensures { IfOk result (λ acted. row_of client.new acted
        ≡ take_answer client.old asked.number asked.line asked.request asked.let_go stamp said) }
{
    match found_again(&asked.let_go, &said) {
        Some(ino) => {
            drop(said);
            client.ask_anew(asked.number, asked.line, asked.request, ino)
        }
        None => {
            let acted = take_answer(client, &asked, stamp, said);
            drop(asked);
            acted
        }
    }
}
