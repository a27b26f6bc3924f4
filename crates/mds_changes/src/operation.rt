// Operations on the table of snapshots, which are prepared before they have their effect.
ghost use Rattle.std.specs.Prelude.{◌≡◌, None, Some, OnOk};
ghost use Rattle.step_table.specs.Acts.{acts, entry_for};
ghost use Rattle.step_table.specs.Requests as requests;
ghost use Rattle.step_table.specs.ServerState.{Server};
ghost use Rattle.mds_state.specs.Fits.{IsFit};
ghost use Rattle.mds_state.specs.Stands.{StandsFor};
ghost use Rattle.mds_changes.specs.Decided.{can_be_given, prepared_in, CanPrepare, MayPrepare};

use mds_state::{Asked, MdsState};
use plain_types::{Entry, What};
use snap_ids::NoMemory;

// Ids of snapshots stay below 2^62.
const IDS: u64 = 4611686018427387904;

// What prepares the change that an entry says, where that makes or removes a snapshot.
pub(crate) fn prepared_by(what: &What) -> Option<What>
    ensures { result ≡ prepared_in what.now }
{
    match what {
        What::Mksnap { id, .. } => Some(What::PrepareCreate { id: *id }),
        What::Rmsnap { id } => Some(What::PrepareDestroy { id: *id }),
        _ => None,
    }
}

// Whether the id of the snapshot that this prepares can be given, if it is a new one.
fn can_be_given(what: &What) -> bool
    ensures { result ≡ can_be_given what.now }
{
    match what {
        What::PrepareCreate { id } => id.0 < IDS,
        _ => true,
    }
}

// What a request writes down.
fn entry_for(asked: &Asked, what: What) -> Entry
    ensures { result ≡ entry_for asked.now what }
{
    Entry {
        client: asked.client(),
        number: asked.tid(),
        what,
    }
}

// The operation in hand is prepared by this, or deferred where another one is outstanding, or deferred and counts.
pub(crate) fn prepare(
    state: &mut MdsState,
    asked: Asked,
    alone: bool,
    what: What,
) -> Result<(), NoMemory>
    requires may { MayPrepare state.old asked what }
    ensures clients { OnOk result (state.new.clients ≡ state.old.clients) }
    ensures table { OnOk result ((s : Server) → StandsFor state.old (Some asked) s → IsFit s asked
        → CanPrepare s.entries what → StandsFor state.new None (acts s (requests.prepare alone s what))) }
{
    if state.is_busy(alone) {
        state.defer(asked)?;
        return Ok(());
    }
    if !can_be_given(&what) {
        return Err(NoMemory);
    }
    let entry = entry_for(&asked, what);
    state.prepare(asked, entry)?;
    Ok(())
}
