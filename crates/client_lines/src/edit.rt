// Changes of an open file's bytes.
ghost use Rattle.std.specs.Prelude.{◌≡◌, ◌+◌, true, Some, IfOk, OnOk};
ghost use Rattle.step_table.specs.Messages.{is_size};
ghost use Rattle.step_table.specs.ClientState.{edit_of};
ghost use Rattle.step_table.specs.ClientLines.{opened, begin};
ghost use Rattle.client_state.specs.Acts.{row_of};
ghost use Rattle.client_lines.specs.Rows.{reach_of, file_to_edit, edit_fits, edits_file, edits_allowed};

use client_state::{Acted, ClientState};
use plain_types::{Line, Refusal, Request};
use snap_ids::{Ino, Mode, NoMemory};

// The largest size of a file.
const LARGEST: u32 = 65536;

/// By which handle a line changes bytes, and whether it ends within the largest file.
#[derive(Clone, Copy, Debug)]
pub(crate) struct Reach {
    handle: u8,
    fits: bool,
}

// Whether so many bytes from an offset on end within the largest file.
fn fits(offset: u32, count: usize) -> bool
    ensures { result ≡ is_size (offset + count) }
{
    offset <= LARGEST && count <= (LARGEST - offset) as usize
}

/// The handle of a line's change of bytes, and whether it ends within the largest file; None for another line.
pub(crate) fn reach_of(line: &Line) -> Option<Reach>
    ensures { result ≡ reach_of (edit_of line.now) }
{
    match line {
        Line::Write {
            handle,
            offset,
            bytes,
        } => Some(Reach {
            handle: *handle,
            fits: fits(*offset, bytes.len()),
        }),
        Line::Truncate { handle, length } => Some(Reach {
            handle: *handle,
            fits: fits(*length, 0),
        }),
        _ => None,
    }
}

// The file that is to be changed, or why it can't be.
fn file_to_edit(client: &ClientState, reach: Reach) -> Result<Ino, Refusal>
    ensures file { result ≡ file_to_edit (opened client.now reach.handle) reach.fits }
    ensures fits { OnOk result (reach.fits ≡ true) }
{
    let Some(file) = client.opened(reach.handle) else {
        return Err(Refusal::BadHandle);
    };
    if !file.writable() {
        return Err(Refusal::ReadOnly);
    }
    if !reach.fits {
        return Err(Refusal::TooLarge);
    }
    Ok(file.ino())
}

// A change of a file's bytes takes effect at once where the file is held for Write, and else asks for that.
fn edit_file(client: &mut ClientState, number: u32, line: Line, ino: Ino) -> Result<Acted, NoMemory>
    requires { edit_fits (edit_of line) ≡ true }
    ensures { IfOk result (λ acted. row_of client.new acted ≡ edits_file client.old number line ino (edit_of line)) }
{
    if client.writes(ino) {
        return client.edit(number, ino, line);
    }
    let request = Request::Cap {
        ino,
        mode: Mode::Write,
    };
    client.ask(number, line, request)
}

/// A line that changes bytes begins.
pub(crate) fn edit_line(
    client: &mut ClientState,
    number: u32,
    line: Line,
    reach: Reach,
) -> Result<Acted, NoMemory>
    requires { reach_of (edit_of line) ≡ Some reach }
    ensures { IfOk result (λ acted. row_of client.new acted ≡ begin client.old number line) }
{
    match file_to_edit(client, reach) {
        Ok(ino) => edit_file(client, number, line, ino),
        Err(refusal) => client.refuse(number, refusal),
    }
}
