// A client that connects.
ghost use Rattle.std.specs.Prelude.{◌≡◌, ◌≤◌, ◌&&◌, [], ◌∷◌, None, nat_lt, true, if◌then◌else◌, Option, OnOk};
ghost use Rattle.std.specs.List.{list_all};
ghost use Rattle.step_table.specs.Acts.{acts, each, Settled};
ghost use Rattle.step_table.specs.Flushes as table;
ghost use Rattle.step_table.specs.Flushes.{brought, knows_asked, knows_file};
ghost use Rattle.step_table.specs.Messages.{flush_fits};
ghost use Rattle.step_table.specs.ServerRows.{back};
ghost use Rattle.step_table.specs.ServerState.{Asked as Taken, Server, connection};
ghost use Rattle.mds_state.specs.Acted.{Stands};
ghost use Rattle.mds_state.specs.Stands.{IsState, StandsFor};
ghost use Rattle.mds_flushes.specs.Takes.{KnowsAll, KnowsFile, MayReturn, is_known, is_known_claim};

use crate::taking::take_flush;
use mds_state::MdsState;
use plain_types::{Claim, Claims, FlushMsg, Flushes, Request};
use snap_ids::NoMemory;

// Whether each of the files that a client claims was made.
fn knows_claims(state: &MdsState, claims: &[Claim]) -> bool
    ensures { (s : Server) (taken : Option Taken) → StandsFor state.now taken s
        → result ≡ list_all (is_known_claim s) claims.now }
{
    let mut left = claims;
    while let Some((claim, rest)) = left.split_first() {
        if !state.knows_file(claim.ino) {
            return false;
        }
        left = rest;
    }
    true
}

// Whether the file of each flush was made.
fn knows_flushes(state: &MdsState, flushes: &[FlushMsg]) -> bool
    ensures { (s : Server) (taken : Option Taken) → StandsFor state.now taken s
        → result ≡ list_all (is_known s) flushes.now }
{
    let mut left = flushes;
    while let Some((flush, rest)) = left.split_first() {
        if !state.knows_file(flush.ino) {
            return false;
        }
        left = rest;
    }
    true
}

// Whether a request for a file is for one that was made.
fn knows_asked(state: &MdsState, request: &Request) -> bool
    ensures { (s : Server) (taken : Option Taken) → StandsFor state.now taken s → result ≡ knows_asked s request.now }
{
    match request {
        Request::Cap { ino, .. } => state.knows_file(*ino),
        _ => true,
    }
}

// Whether the request that a client brings along is, if it brings one.
fn knows_brought(state: &MdsState, client: u8, asked: &Option<(u64, Request)>) -> bool
    ensures { (s : Server) (taken : Option Taken) → StandsFor state.now taken s
        → result ≡ table.knows_brought s (brought client asked.now) }
{
    match asked {
        None => true,
        Some(asked) => knows_asked(state, &asked.1),
    }
}

// Whether a connection's number is above that of the client's last one.
fn is_newer(state: &MdsState, client: u8, conn: u64) -> bool
    requires from_one { 1 ≤ client }
    requires upto { client ≤ state.now.clients }
    ensures { (s : Server) (taken : Option Taken) → StandsFor state.now taken s
        → result ≡ nat_lt (connection s client) conn }
{
    state.connection(client) < conn
}

// Whether it is, and each of the files that the client claims was made.
fn may_claim(state: &MdsState, client: u8, conn: u64, claims: &Claims) -> bool
    requires from_one { 1 ≤ client }
    requires upto { client ≤ state.now.clients }
    ensures { (s : Server) (taken : Option Taken) → StandsFor state.now taken s
        → result ≡ (nat_lt (connection s client) conn && list_all (is_known_claim s) claims.now) }
{
    is_newer(state, client, conn) && knows_claims(state, claims.as_slice())
}

// Whether the file of each flush was made too.
fn may_bring(state: &MdsState, client: u8, conn: u64, claims: &Claims, flushes: &Flushes) -> bool
    requires from_one { 1 ≤ client }
    requires upto { client ≤ state.now.clients }
    ensures { (s : Server) (taken : Option Taken) → StandsFor state.now taken s
        → result ≡ (nat_lt (connection s client) conn && list_all (is_known_claim s) claims.now
        && list_all (is_known s) flushes.now) }
{
    may_claim(state, client, conn, claims) && knows_flushes(state, flushes.as_slice())
}

// Whether the connection is taken.
fn is_taken(
    state: &MdsState,
    client: u8,
    conn: u64,
    claims: &Claims,
    flushes: &Flushes,
    asked: &Option<(u64, Request)>,
) -> bool
    requires from_one { 1 ≤ client }
    requires upto { client ≤ state.now.clients }
    ensures { (s : Server) (taken : Option Taken) → StandsFor state.now taken s
        → result ≡ table.may_connect s client conn claims.now flushes.now (brought client asked.now) }
{
    may_bring(state, client, conn, claims, flushes) && knows_brought(state, client, asked)
}

/// Whether a client's connection is taken: its number is above that of the client's last one, and the files of which it
/// speaks were made. It takes no memory.
pub fn may_connect(
    state: &MdsState,
    client: u8,
    conn: u64,
    claims: &Claims,
    flushes: &Flushes,
    asked: &Option<(u64, Request)>,
) -> bool
    requires from_one { 1 ≤ client }
    requires upto { client ≤ state.now.clients }
    ensures table { (s : Server) (taken : Option Taken) → StandsFor state.now taken s
        → result ≡ table.may_connect s client conn claims.now flushes.now (brought client asked.now) }
    ensures may { IsState state.now → result ≡ true → MayReturn state.now client conn claims.now flushes.now }
{
    is_taken(state, client, conn, claims, flushes, asked)
}

// A flush's file is settled, unless it is a release.
fn settle_brought(state: &mut MdsState, client: u8, flush: &FlushMsg)
    ensures clients { state.new.clients ≡ state.old.clients }
    ensures table { (s : Server) (taken : Option Taken) → StandsFor state.old taken s → StandsFor state.new taken
        (acts s (if flush.now.release then [] else Settled client flush.now.ino flush.now.upto ∷ [])) }
{
    if !flush.release {
        state.settle(client, flush.ino, flush.upto);
    }
}

// A flush that a client brings along at its connection is taken. It settles its file though it was taken before.
fn take_brought(state: &mut MdsState, client: u8, flush: &FlushMsg) -> Result<(), NoMemory>
    requires from_one { 1 ≤ client }
    requires upto { client ≤ state.old.clients }
    requires known { KnowsFile state.old flush.now.ino }
    requires fits { flush_fits flush.now ≡ true }
    ensures clients { OnOk result (state.new.clients ≡ state.old.clients) }
    ensures table { OnOk result ((s : Server) (taken : Option Taken) → StandsFor state.old taken s
        → knows_file s flush.now.ino ≡ true
        → StandsFor state.new taken (acts s (table.take_brought client s flush.now))) }
{
    take_flush(state, client, flush)?;
    settle_brought(state, client, flush);
    Ok(())
}

// All flushes that a client brings along are taken, in their order.
fn take_all(state: &mut MdsState, client: u8, flushes: &[FlushMsg]) -> Result<(), NoMemory>
    requires from_one { 1 ≤ client }
    requires upto { client ≤ state.old.clients }
    requires known { KnowsAll state.old flushes.now }
    requires fit { list_all flush_fits flushes.now ≡ true }
    ensures clients { OnOk result (state.new.clients ≡ state.old.clients) }
    ensures table { OnOk result ((s : Server) (taken : Option Taken) → StandsFor state.old taken s
        → list_all (is_known s) flushes.now ≡ true
        → StandsFor state.new taken (acts s (each (table.take_brought client) s flushes.now))) }
{
    let mut left = flushes;
    while let Some((flush, rest)) = left.split_first() {
        take_brought(state, client, flush)?;
        left = rest;
    }
    Ok(())
}

/// A client comes back with a connection that is taken: it holds what it claims in place of all that it held, its flushes
/// are taken, the connection has its number, and the client is welcomed. The request that it brings along is the caller's.
/// It fails only with `NoMemory`.
pub fn come_back(
    state: &mut MdsState,
    client: u8,
    conn: u64,
    claims: &Claims,
    flushes: &Flushes,
) -> Result<(), NoMemory>
    requires from_one { 1 ≤ client }
    requires upto { client ≤ state.old.clients }
    requires may { MayReturn state.old client conn claims.now flushes.now }
    requires fit { list_all flush_fits flushes.now ≡ true }
    ensures clients { OnOk result (state.new.clients ≡ state.old.clients) }
    ensures table { OnOk result ((s : Server) (asked : Option Taken) → Stands state.old s
        → table.may_connect s client conn claims.now flushes.now asked ≡ true
        → Stands state.new (back s client conn claims.now flushes.now None)) }
{
    state.come_back(client, claims)?;
    take_all(state, client, flushes.as_slice())?;
    state.connected(client, conn);
    state.welcome(client, conn)?;
    Ok(())
}
