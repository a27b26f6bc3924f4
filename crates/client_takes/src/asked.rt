// What a request asks for, and what its answer says.
ghost use Rattle.std.specs.Prelude.{◌≡◌};
ghost use Rattle.step_table.specs.ClientTakes.{same_mode, asks_for, is_success, wants_bytes};
ghost use Rattle.client_takes.specs.Takes.{says_done};

use plain_types::{Answer, Inos, Line, Request};
use snap_ids::{Ino, Mode};

/// The line whose request is open, and the files that were let go since that was last sent.
#[derive(Drop)]
pub(crate) struct Asked {
    pub(crate) number: u32,
    pub(crate) line: Line,
    pub(crate) request: Request,
    pub(crate) let_go: Inos,
}

// Whether two modes are the same.
fn same_mode(mode: Mode, other: Mode) -> bool
    ensures { result ≡ same_mode mode other }
{
    match mode {
        Mode::Read => matches!(other, Mode::Read),
        Mode::Write => matches!(other, Mode::Write),
    }
}

/// Whether a request is for this capability.
pub(crate) fn asks_for(request: &Request, ino: Ino, mode: Mode) -> bool
    ensures { result ≡ asks_for request.now ino mode }
{
    match request {
        Request::Cap {
            ino: file,
            mode: wanted,
        } => ino.0 == file.0 && same_mode(mode, *wanted),
        _ => false,
    }
}

/// Whether a request is for a file's bytes.
pub(crate) fn wants_bytes(request: &Request) -> bool
    ensures { result ≡ wants_bytes request.now }
{
    matches!(request, Request::Cat { .. })
}

// Whether an answer says that something was done.
fn was_done(said: &Answer) -> bool
    ensures { result ≡ says_done said.now }
{
    matches!(said, Answer::Done | Answer::Snap(_) | Answer::Opened(_))
}

/// Whether an answer says that the request's change was made.
pub(crate) fn is_success(request: &Request, said: &Answer) -> bool
    ensures { result ≡ is_success request.now said.now }
{
    match request {
        Request::Barrier { .. } => false,
        _ => was_done(said),
    }
}
