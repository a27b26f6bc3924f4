// A client's own steps.
ghost use Rattle.std.specs.Prelude.{◌≡◌, true, Some, is_some, IfOk};
ghost use Rattle.step_table.specs.ClientLines.{on_op, on_flush};
ghost use Rattle.client_state.specs.Acts.{row_of};

use crate::begin::begin;
use crate::items::send_due;
use client_state::{Acted, ClientState};
use snap_ids::NoMemory;

/// Whether a client may go on with its lines: one is left, and none is under way or it is `break`, and the client doesn't
/// wait for the server to welcome it.
pub fn may_op(client: &ClientState) -> bool
    ensures { result ≡ is_some (on_op client.now) }
{
    client.may_begin()
}

/// A client goes on with its lines: the next one begins. After want of memory the client may only be dropped.
pub fn op(client: &mut ClientState) -> Result<Acted, NoMemory>
    requires { is_some (on_op client.old) ≡ true }
    ensures { IfOk result (λ acted. on_op client.old ≡ Some (row_of client.new acted)) }
{
    let line = client.begin_line()?;
    let number = client.begun();
    begin(client, number, line)
}

/// Whether a client has something to send: something is due, and the client doesn't wait for the server to welcome it.
pub fn may_flush(client: &ClientState) -> bool
    ensures { result ≡ is_some (on_flush client.now) }
{
    !client.is_frozen() && client.first_due().is_some()
}

/// A client sends what is due for the first file that has something due. After want of memory the client may only be
/// dropped.
pub fn flush(client: &mut ClientState) -> Result<Acted, NoMemory>
    requires { is_some (on_flush client.old) ≡ true }
    ensures { IfOk result (λ acted. on_flush client.old ≡ Some (row_of client.new acted)) }
{
    let item = client.first_due().unwrap();
    send_due(client, item)
}
