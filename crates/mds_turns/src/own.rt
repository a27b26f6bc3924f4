// Entries that the server makes by itself.
ghost use Rattle.std.specs.Prelude.{◌≡◌, true, Option, OnOk};
ghost use Rattle.step_table.specs.Acts.{act, own_entry, Buffer};
ghost use Rattle.step_table.specs.ServerState.{Asked as Taken, Server};
ghost use Rattle.mds_state.specs.Stands.{IsState, StandsFor};
ghost use Rattle.mds_turns.specs.Finishing.{is_own};

use mds_state::MdsState;
use plain_types::{Entry, What};
use snap_ids::NoMemory;

// Such an entry is of no client and has no number.
fn own_entry(what: What) -> Entry
    ensures { result ≡ own_entry what }
{
    Entry {
        client: 0,
        number: 0,
        what,
    }
}

// One more entry that the server makes by itself.
pub(crate) fn write_own(state: &mut MdsState, what: What) -> Result<(), NoMemory>
    requires state { IsState state.old }
    requires own { is_own what ≡ true }
    ensures clients { OnOk result (state.new.clients ≡ state.old.clients) }
    ensures table { OnOk result ((s : Server) (taken : Option Taken) → StandsFor state.old taken s
        → StandsFor state.new taken (act s (Buffer (own_entry what)))) }
{
    let entry = own_entry(what);
    state.buffer(entry)?;
    Ok(())
}
