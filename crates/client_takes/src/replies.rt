// What comes of a reply of the server.
ghost use Rattle.std.specs.Prelude.{◌≡◌, true, false, IfOk, IsOk};
ghost use Rattle.step_table.specs.ClientState.{Idle};
ghost use Rattle.step_table.specs.ClientTakes.{takes_answer, take_reply};
ghost use Rattle.client_state.specs.Acts.{row_of, under_of, under_fits};
ghost use Rattle.client_takes.specs.Takes.{is_asked, takes_reply, answer_row};

use crate::answers::take_line;
use crate::asked::Asked;
use client_state::{Acted, ClientState, UnderWay};
use plain_types::{Answer, Stamp};
use snap_ids::NoMemory;

// Whether the open request has this number.
fn is_asked(under: &UnderWay, tid: u64) -> bool
    ensures { result ≡ is_asked tid (under_of under.now) }
{
    match under {
        UnderWay::Open { tid: open_tid, .. } => *open_tid == tid,
        _ => false,
    }
}

// Whether an answer can be taken: it isn't for a reader of a file that the client holds for Write.
fn takes_answer(client: &ClientState, said: &Answer) -> bool
    ensures { result ≡ takes_answer client.now said.now }
{
    match said {
        Answer::FoundLive {
            ino,
            write_held,
            ..
        } => *write_held || !client.writes(*ino),
        _ => true,
    }
}

// Whether a reply is of the open request, and can be taken.
fn takes_reply(client: &ClientState, tid: u64, said: &Answer) -> bool
    ensures { result ≡ takes_reply client.now tid said.now }
{
    if !is_asked(client.under(), tid) {
        return false;
    }
    takes_answer(client, said)
}

// What was under way is answered, when nothing is any more.
fn answered(
    client: &mut ClientState,
    under: UnderWay,
    stamp: Stamp,
    said: Answer,
) -> Result<Acted, NoMemory>
    requires idle { client.old.under ≡ Idle }
    requires fits { under_fits (under_of under) ≡ true }
    requires taken { takes_answer client.old said ≡ true }
    ensures { IfOk result (λ acted. row_of client.new acted ≡ answer_row client.old stamp said (under_of under)) }
{
    match under {
        UnderWay::Open {
            number,
            line,
            request,
            let_go,
            ..
        } => {
            let asked = Asked {
                number,
                line,
                request,
                let_go,
            };
            take_line(client, asked, stamp, said)
        }
        UnderWay::Idle => Ok(client.stay()),
        UnderWay::AtStore { .. } => Ok(client.stay()),
    }
}

/// A reply is taken where it is of the open request, and else dropped.
pub(crate) fn take_reply(
    client: &mut ClientState,
    tid: u64,
    stamp: Stamp,
    said: Answer,
) -> Result<Acted, NoMemory>
    ensures row { IfOk result (λ acted. row_of client.new acted ≡ take_reply client.old tid stamp said client.old.under) }
    ensures dropped { takes_reply client.old tid said ≡ false → IsOk result }
{
    if !takes_reply(client, tid, &said) {
        return Ok(client.stay());
    }
    let under = client.idle();
    answered(client, under, stamp, said)
}
