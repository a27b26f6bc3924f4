// Which messages the server can take at all: the numbers in them can be.
ghost use Rattle.std.specs.Prelude.{◌≡◌, ◌||◌};
ghost use Rattle.std.specs.List.{list_all};
ghost use Rattle.step_table.specs.Messages.{claim_fits, flush_fits, is_id, is_size, to_server_fits};

use plain_types::{Claim, FlushMsg, ToServer};
use snap_ids::{NOSNAP, SnapId};

// Whether an id is below the one that stands for what is live.
fn is_id(s: SnapId) -> bool
    ensures { result ≡ is_id s }
{
    s.0 < NOSNAP.0
}

// Whether a file can have this size.
fn is_size(size: u32) -> bool
    ensures { result ≡ is_size size }
{
    size <= 65536
}

// Whether the last id of a flush can be. That of a release counts for nothing.
fn ends_well(flush: &FlushMsg) -> bool
    ensures { result ≡ (flush.now.release || is_id flush.now.upto) }
{
    flush.release || is_id(flush.upto)
}

// Whether the numbers in a flush can be.
fn flush_fits(flush: &FlushMsg) -> bool
    ensures { result ≡ flush_fits flush.now }
{
    if !is_id(flush.follows) {
        return false;
    }
    if !ends_well(flush) {
        return false;
    }
    is_size(flush.size)
}

// Whether those of some flushes can be.
fn flushes_fit(flushes: &[FlushMsg]) -> bool
    ensures { result ≡ list_all flush_fits flushes.now }
{
    flushes.iter().all(|flush| flush_fits(flush))
}

// Whether the ids in some claims can be.
fn claims_fit(claims: &[Claim]) -> bool
    ensures { result ≡ list_all claim_fits claims.now }
{
    claims.iter().all(|claim| is_id(claim.settled))
}

// Whether the numbers in a message to the server can be. It takes no memory.
pub(crate) fn fits(message: &ToServer) -> bool
    ensures { result ≡ to_server_fits message.now }
{
    match message {
        ToServer::Connect {
            claims,
            flushes,
            ..
        } => { claims_fit(claims.as_slice()) && flushes_fit(flushes.as_slice()) }
        ToServer::Flush { flush, .. } => flush_fits(flush),
        ToServer::Purged(id) => is_id(*id),
        ToServer::Ask { .. } => true,
        ToServer::DropRead { .. } => true,
        ToServer::Deleted(_) => true,
    }
}
