// How a line begins.
ghost use Rattle.std.specs.Prelude.{◌≡◌, None, IfOk};
ghost use Rattle.plain_types.specs.declared.script.Line.TheVariants as line;
ghost use Rattle.plain_tree.specs.Line.{request_of};
ghost use Rattle.step_table.specs.ClientState.{edit_of};
ghost use Rattle.step_table.specs.ClientLines.{opened, read_line, begin_asked, begin_other, begin};
ghost use Rattle.client_state.specs.Acts.{row_of};

use crate::asked::request_of;
use crate::edit::{edit_line, reach_of};
use client_state::{Acted, ClientState};
use plain_types::{Line, Refusal, Request};
use snap_ids::{Mode, NoMemory};

// `read` asks the store at once where the file is held, and else asks for Read.
fn read_line(client: &mut ClientState, number: u32, handle: u8) -> Result<Acted, NoMemory>
    ensures { IfOk result (λ acted. row_of client.new acted
        ≡ read_line client.old number (line.Read handle) (opened client.old handle)) }
{
    let Some(file) = client.opened(handle) else {
        return client.refuse(number, Refusal::BadHandle);
    };
    let ino = file.ino();
    if client.holds(ino) {
        return client.read_head(number, 0, ino);
    }
    let request = Request::Cap {
        ino,
        mode: Mode::Read,
    };
    client.ask(number, Line::Read { handle }, request)
}

// The server is asked for a line.
fn begin_asked(client: &mut ClientState, number: u32, line: Line) -> Result<Acted, NoMemory>
    requires { edit_of line ≡ None }
    ensures { IfOk result (λ acted. row_of client.new acted ≡ begin_asked client.old number line (request_of line)) }
{
    match request_of(&line)? {
        Some(request) => client.ask(number, line, request),
        None => Ok(client.stay()),
    }
}

// A line that changes no bytes begins.
fn begin_other(client: &mut ClientState, number: u32, line: Line) -> Result<Acted, NoMemory>
    requires { edit_of line ≡ None }
    ensures { IfOk result (λ acted. row_of client.new acted ≡ begin_other client.old number line) }
{
    match line {
        Line::Read { handle } => read_line(client, number, handle),
        Line::Barrier => client.ask_barrier(number),
        Line::Break => client.break_link(number),
        line => begin_asked(client, number, line),
    }
}

/// A line begins.
pub(crate) fn begin(client: &mut ClientState, number: u32, line: Line) -> Result<Acted, NoMemory>
    ensures { IfOk result (λ acted. row_of client.new acted ≡ begin client.old number line) }
{
    match reach_of(&line) {
        Some(reach) => edit_line(client, number, line, reach),
        None => begin_other(client, number, line),
    }
}
