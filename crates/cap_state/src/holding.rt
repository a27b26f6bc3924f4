// One holding: a client, and what it holds.
ghost use Rattle.std.specs.Prelude.{◌≡◌, Some};
ghost use Rattle.cap_state.specs.Table.{writes, is_at, stands_before, conflicts, bars, raised, suffices};

use plain_types::Claim;
use snap_ids::{Ino, Mode, SnapId};

// Whether a mode lets a client change a file.
pub(crate) fn writes(mode: Mode) -> bool
    ensures { result ≡ writes mode }
{
    match mode {
        Mode::Read => false,
        Mode::Write => true,
    }
}

// Whether holding a file in one mode lets a client do what another mode lets it do.
pub(crate) fn suffices(old: Mode, mode: Mode) -> bool
    ensures { result ≡ suffices (Some old) mode }
{
    writes(old) || !writes(mode)
}

// Whether it is the client's holding of the file.
pub(crate) fn is_at(held: &(u8, Claim), client: u8, ino: Ino) -> bool
    ensures { result ≡ is_at client ino held.now }
{
    held.0 == client && held.1.ino == ino
}

// Whether it stands before the client's holding of the file.
pub(crate) fn stands_before(held: &(u8, Claim), client: u8, ino: Ino) -> bool
    ensures { result ≡ stands_before client ino held.now }
{
    if held.1.ino == ino {
        held.0 < client
    } else {
        held.1.ino < ino
    }
}

// Whether it conflicts with what a client asks for, if it is of the same file.
pub(crate) fn conflicts(held: &(u8, Claim), client: u8, mode: Mode) -> bool
    ensures { result ≡ conflicts client mode held.now }
{
    held.0 != client && (writes(mode) || writes(held.1.mode))
}

// Whether it stands in the way of a client's claim, if it is of the same file.
pub(crate) fn bars(held: &(u8, Claim), client: u8, mode: Mode) -> bool
    ensures { result ≡ bars client mode held.now }
{
    held.0 == client || writes(mode) || writes(held.1.mode)
}

// The claim, settled up to an id at least.
pub(crate) fn raised(claim: &Claim, upto: SnapId) -> Claim
    ensures { result ≡ raised upto claim.now }
{
    let settled = SnapId(upto.0.max(claim.settled.0));
    Claim { settled, ..*claim }
}
