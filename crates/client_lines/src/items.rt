// How what is due is sent.
ghost use Rattle.std.specs.Prelude.{◌≡◌, Some, IfOk};
ghost use Rattle.held_files.specs.declared.due.Due.TheVariants as due;
ghost use Rattle.held_files.specs.Due.{first_due};
ghost use Rattle.step_table.specs.ClientLines.{reading};
ghost use Rattle.client_state.specs.Acts.{row_of};
ghost use Rattle.client_lines.specs.Rows.{orders, sends_item};

use client_state::{Acted, ClientState, Due};
use plain_types::ToStore;
use snap_ids::{Ino, NoMemory};

// The store is sent a piece, if there is one.
fn order_piece(client: &ClientState, order: Option<ToStore>) -> Result<Acted, NoMemory>
    ensures { IfOk result (λ acted. row_of client.now acted ≡ orders client.now order) }
{
    match order {
        Some(order) => client.order_store(order),
        None => Ok(client.stay()),
    }
}

// The oldest piece of a file that waits is sent to the store.
fn send_piece(client: &mut ClientState, ino: Ino) -> Result<Acted, NoMemory>
    requires { first_due (reading client.old.under) client.old.files ≡ Some (due.Piece ino) }
    ensures { IfOk result (λ acted. row_of client.new acted ≡ sends_item client.old (due.Piece ino)) }
{
    let order = client.order(ino)?;
    client.count_sent(&Due::Piece(ino));
    order_piece(client, order)
}

/// What is due is sent, and counts as sent.
pub(crate) fn send_due(client: &mut ClientState, item: Due) -> Result<Acted, NoMemory>
    requires { first_due (reading client.old.under) client.old.files ≡ Some item }
    ensures { IfOk result (λ acted. row_of client.new acted ≡ sends_item client.old item) }
{
    match item {
        Due::Piece(ino) => send_piece(client, ino),
        Due::Mark {
            ino,
            follows,
            upto,
            size,
        } => {
            client.count_sent(&item);
            client.send_mark(ino, follows, upto, size)
        }
        Due::Release { ino, size } => {
            client.count_sent(&item);
            client.send_release(ino, size)
        }
        Due::DropRead(ino) => {
            client.count_sent(&item);
            client.send_drop(ino)
        }
    }
}
