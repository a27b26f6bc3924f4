// What the store reports.
ghost use Rattle.std.specs.Prelude.{◌≡◌, false, IfOk, OnOk};
ghost use Rattle.plain_types.specs.declared.message.ToServer.TheVariants.{Deleted, Purged};
ghost use Rattle.step_table.specs.Acts as table;
ghost use Rattle.step_table.specs.ServerRows.{reported};
ghost use Rattle.step_table.specs.ServerState.{Server};
ghost use Rattle.mds_state.specs.Acted.{Acted, Stands};
ghost use Rattle.mds_state.specs.Stands.{IsState};

use mds_state::MdsState;
use plain_types::{Entry, ToServer, What};
use snap_ids::{Ino, NoMemory, SnapId};

// An entry that the server makes by itself.
fn own_entry(what: What) -> Entry
    ensures { result ≡ table.own_entry what }
{
    Entry {
        client: 0,
        number: 0,
        what,
    }
}

// The store has dropped a removed snapshot.
fn note_purged(state: &mut MdsState, id: SnapId) -> Result<bool, NoMemory>
    requires { IsState state.old }
    ensures clients { OnOk result (state.new.clients ≡ state.old.clients) }
    ensures acts { IfOk result (λ opened. (s : Server) → Stands state.old s
        → Acted state.new s (reported s (Purged id)) opened) }
{
    if state.is_to_purge(id) {
        state.buffer(own_entry(What::Purgedone { id }))?;
        return Ok(false);
    }
    Ok(false)
}

// The store has dropped a file.
fn note_deleted(state: &mut MdsState, ino: Ino) -> Result<bool, NoMemory>
    requires { IsState state.old }
    ensures clients { OnOk result (state.new.clients ≡ state.old.clients) }
    ensures acts { IfOk result (λ opened. (s : Server) → Stands state.old s
        → Acted state.new s (reported s (Deleted ino)) opened) }
{
    if state.is_dead(ino) {
        state.buffer(own_entry(What::Deadfile { ino }))?;
        return Ok(false);
    }
    Ok(false)
}

/// The store reports what it has dropped: that is written down, once. What was written down before, and what the store
/// doesn't say, does nothing. Gives whether held requests are to be decided anew: never. It fails only with `NoMemory`.
pub fn on_report(state: &mut MdsState, report: &ToServer) -> Result<bool, NoMemory>
    requires state { IsState state.old }
    ensures clients { OnOk result (state.new.clients ≡ state.old.clients) }
    ensures acts { IfOk result (λ opened. (s : Server) → Stands state.old s
        → Acted state.new s (reported s report.now) opened) }
{
    match report {
        ToServer::Purged(id) => note_purged(state, *id),
        ToServer::Deleted(ino) => note_deleted(state, *ino),
        ToServer::Connect { .. } => Ok(false),
        ToServer::Ask { .. } => Ok(false),
        ToServer::Flush { .. } => Ok(false),
        ToServer::DropRead { .. } => Ok(false),
    }
}
