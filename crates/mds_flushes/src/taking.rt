// Flushes that are taken, and readers that let go.
ghost use Rattle.std.specs.Prelude.{◌≡◌, ◌≤◌, ◌&&◌, nat_le, not, true, Option, IfOk, OnOk};
ghost use Rattle.std.specs.List.{list_any};
ghost use Rattle.plain_journal.specs.Table as journal;
ghost use Rattle.held_files.specs.Files.{is_write};
ghost use Rattle.step_table.specs.Acts.{act, acts};
ghost use Rattle.step_table.specs.Flushes as table;
ghost use Rattle.step_table.specs.Flushes.{knows_file};
ghost use Rattle.step_table.specs.Messages.{flush_fits};
ghost use Rattle.step_table.specs.Requests.{opens};
ghost use Rattle.step_table.specs.ServerState.{Asked as Taken, Holder, Server, is_holder};
ghost use Rattle.mds_state.specs.Acted.{Acted, Stands};
ghost use Rattle.mds_state.specs.Stands.{IsState, StandsFor};
ghost use Rattle.mds_flushes.specs.Takes.{KnowsFile};

use mds_state::MdsState;
use plain_types::{Entry, FlushMsg, What};
use snap_ids::{Ino, NoMemory};

// What the entry of a flush says.
fn flush_entry(flush: &FlushMsg) -> What
    ensures { result ≡ table.flush_entry flush.now }
{
    if flush.release {
        What::Release {
            ino: flush.ino,
            follows: flush.follows,
            size: flush.size,
        }
    } else {
        What::Settle {
            ino: flush.ino,
            follows: flush.follows,
            upto: flush.upto,
            size: flush.size,
        }
    }
}

// The entry of a client's flush.
fn entry_of(client: u8, flush: &FlushMsg) -> Entry
    ensures { result ≡ record { client = client; number = flush.now.number; what = table.flush_entry flush.now } }
{
    Entry {
        client,
        number: flush.number,
        what: flush_entry(flush),
    }
}

// Whether a client's flush with this number was taken before.
fn was_taken(state: &MdsState, client: u8, number: u64) -> bool
    requires from_one { 1 ≤ client }
    requires upto { client ≤ state.now.clients }
    ensures { (s : Server) (taken : Option Taken) → StandsFor state.now taken s
        → result ≡ nat_le number (journal.last_flush s.entries client) }
{
    number <= state.last_flush(client)
}

// A flush's file is settled, or let go after a release.
fn settle(state: &mut MdsState, client: u8, flush: &FlushMsg)
    ensures clients { state.new.clients ≡ state.old.clients }
    ensures table { (s : Server) (taken : Option Taken) → StandsFor state.old taken s
        → StandsFor state.new taken (act s (table.flush_settles client flush.now)) }
{
    if flush.release {
        state.let_go(client, flush.ino);
    } else {
        state.settle(client, flush.ino, flush.upto);
    }
}

// A client's flush is taken, unless it was before. Gives whether its file was let go.
pub(crate) fn take_flush(
    state: &mut MdsState,
    client: u8,
    flush: &FlushMsg,
) -> Result<bool, NoMemory>
    requires from_one { 1 ≤ client }
    requires upto { client ≤ state.old.clients }
    requires known { KnowsFile state.old flush.now.ino }
    requires fits { flush_fits flush.now ≡ true }
    ensures clients { OnOk result (state.new.clients ≡ state.old.clients) }
    ensures opened { IfOk result (λ opened. (s : Server) (taken : Option Taken) → StandsFor state.old taken s
        → opened ≡ list_any opens (table.take_flush client s flush.now)) }
    ensures table { OnOk result ((s : Server) (taken : Option Taken) → StandsFor state.old taken s
        → knows_file s flush.now.ino ≡ true
        → StandsFor state.new taken (acts s (table.take_flush client s flush.now))) }
{
    if was_taken(state, client, flush.number) {
        return Ok(false);
    }
    state.buffer(entry_of(client, flush))?;
    settle(state, client, flush);
    Ok(flush.release)
}

/// Whether a flush is of a file that was made. Others aren't taken. It takes no memory.
pub fn may_flush(state: &MdsState, flush: &FlushMsg) -> bool
    ensures table { (s : Server) (taken : Option Taken) → StandsFor state.now taken s
        → result ≡ knows_file s flush.now.ino }
    ensures may { IsState state.now → result ≡ true → KnowsFile state.now flush.now.ino }
{
    state.knows_file(flush.ino)
}

/// A client's flush that comes by itself, of a file that was made: it is written down, unless it was before, and
/// acknowledged. Gives whether the client let the file go, so that held requests are to be decided anew. It fails only with
/// `NoMemory`.
pub fn on_flush(state: &mut MdsState, client: u8, flush: &FlushMsg) -> Result<bool, NoMemory>
    requires from_one { 1 ≤ client }
    requires upto { client ≤ state.old.clients }
    requires known { KnowsFile state.old flush.now.ino }
    requires fits { flush_fits flush.now ≡ true }
    ensures clients { OnOk result (state.new.clients ≡ state.old.clients) }
    ensures acts { IfOk result (λ opened. (s : Server) → Stands state.old s → knows_file s flush.now.ino ≡ true
        → Acted state.new s (table.on_flush client s flush.now) opened) }
{
    let opened = take_flush(state, client, flush)?;
    state.tell_ack(client, flush.number)?;
    Ok(opened)
}

// Whether a client holds a file for Read alone. Who was raised to Write since holds on.
fn only_reads(state: &MdsState, client: u8, ino: Ino) -> bool
    ensures { (s : Server) (taken : Option Taken) → StandsFor state.now taken s
        → result ≡ list_any (λ (h : Holder). is_holder client ino h && not (is_write h.mode)) s.holders }
{
    state.reads(client, ino)
}

/// A client reads a file no more: it lets the file go, unless it writes it or doesn't hold it. Gives whether it let go, so
/// that held requests are to be decided anew. It takes no memory.
pub fn on_drop(state: &mut MdsState, client: u8, ino: Ino) -> bool
    ensures clients { state.new.clients ≡ state.old.clients }
    ensures acts { (s : Server) → Stands state.old s → Acted state.new s (table.on_drop client s ino) result }
{
    if only_reads(state, client, ino) {
        state.let_go(client, ino);
        return true;
    }
    false
}
