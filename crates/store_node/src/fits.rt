// Which messages the store can carry out at all.
ghost use Rattle.std.specs.Prelude.{◌≡◌, ◌+◌, ℕ, length};
ghost use Rattle.std.specs.List.{list_all};
ghost use Rattle.node_core.specs.Steps.{is_order};
ghost use Rattle.plain_types.specs.declared.message.Message.TheVariants as message;
ghost use Rattle.step_table.specs.Messages.{is_id, is_size, context_fits, to_store_fits};

use plain_types::ToStore;
use snap_ids::{Bytes, NOSNAP, SnapContext, SnapId};

// Whether an id is below the one that stands for what is live.
fn is_id(s: SnapId) -> bool
    ensures { result ≡ is_id s }
{
    s.0 < NOSNAP.0
}

// Whether a file can have this size.
fn is_size(size: u32) -> bool
    ensures { result ≡ is_size size }
{
    size <= 65536
}

// Whether bytes end where a file can.
fn ends_well(offset: u32, bytes: &Bytes) -> bool
    ensures { result ≡ is_size (offset + length bytes.now) }
{
    let room = if offset <= 65536 {
        65536 - offset as usize
    } else {
        return false
    };
    bytes.len() <= room
}

// Whether all of these ids can be.
fn are_ids(ids: &[SnapId]) -> bool
    ensures { result ≡ list_all is_id ids.now }
{
    ids.iter().all(|s| is_id(*s))
}

// Whether all ids of a context can be.
fn context_fits(context: &SnapContext) -> bool
    ensures { result ≡ context_fits context.now }
{
    if !is_id(context.seq()) {
        return false;
    }
    are_ids(context.ids())
}

/// Whether all numbers in a message to the store can be.
pub(crate) fn fits(order: &ToStore) -> bool
    ensures { result ≡ to_store_fits order.now }
{
    match order {
        ToStore::WriteAt {
            offset,
            bytes,
            context,
            ..
        } => ends_well(*offset, bytes) && context_fits(context),
        ToStore::Cut {
            length,
            context,
            ..
        } => is_size(*length) && context_fits(context),
        ToStore::Delete { context, .. } => context_fits(context),
        ToStore::ReadHead { size, .. } => is_size(*size),
        ToStore::ReadSnap { size, snap, .. } => is_size(*size) && is_id(*snap),
        ToStore::ListClones { .. } => true,
        ToStore::Purge(id) => is_id(*id),
    }
}

/// Whether a message is one that the server sends.
pub(crate) fn is_order(order: &ToStore) -> bool
    ensures { result ≡ is_order (message.ToStore order.now) }
{
    matches!(order, ToStore::Purge(_) | ToStore::Delete { .. })
}
