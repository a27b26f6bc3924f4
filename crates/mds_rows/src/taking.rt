// What a client sends.
ghost use Rattle.std.specs.Prelude.{◌≡◌, ◌≤◌, ◌&&◌, None, Option, true, IfOk, OnOk};
ghost use Rattle.std.specs.List.{list_all};
ghost use Rattle.plain_types.specs.declared.message.ToServer.TheVariants.{Ask, Connect, DropRead, Flush};
ghost use Rattle.step_table.specs.Flushes as table;
ghost use Rattle.step_table.specs.Flushes.{brought};
ghost use Rattle.step_table.specs.Messages.{flush_fits, to_server_fits};
ghost use Rattle.step_table.specs.ServerRows.{on_take, taken_from};
ghost use Rattle.step_table.specs.ServerState as sessions;
ghost use Rattle.step_table.specs.ServerState.{Asked as Taken, Server};
ghost use Rattle.mds_state.specs.Stands.{StandsFor};
ghost use Rattle.mds_rows.specs.Given.{Gives};
ghost use Rattle.mds_rows.specs.May.{CanTake, CanTakeFrom, MayTakeFrom};
ghost use Rattle.mds_rows.specs.Ready.{MayTake};

use crate::fits::fits;
use crate::sending::{go_on, send};
use mds_flushes::{come_back, may_connect, on_drop, on_flush};
use mds_requests::{ask, connect_with};
use mds_state::{Asked, MdsState};
use plain_types::{Claims, FlushMsg, Flushes, Request, Sending, ToServer};
use snap_ids::{Ino, NoMemory};

// Whether a request for a file is for one that was made.
fn knows_asked(state: &MdsState, request: &Request) -> bool
    ensures { (s : Server) (taken : Option Taken) → StandsFor state.now taken s
        → result ≡ table.knows_asked s request.now }
{
    match request {
        Request::Cap { ino, .. } => state.knows_file(*ino),
        _ => true,
    }
}

// Whether a request comes over the client's connection, and is for a file that was made where it is for one.
fn asks_well(state: &MdsState, client: u8, conn: u64, request: &Request) -> bool
    requires from_one { 1 ≤ client }
    requires upto { client ≤ state.now.clients }
    ensures { (s : Server) (taken : Option Taken) → StandsFor state.now taken s
        → result ≡ (sessions.is_current s client conn && table.knows_asked s request.now) }
{
    state.is_current(client, conn) && knows_asked(state, request)
}

// Whether a flush comes over the client's connection, and is of a file that was made.
fn flushes_well(state: &MdsState, client: u8, conn: u64, ino: Ino) -> bool
    requires from_one { 1 ≤ client }
    requires upto { client ≤ state.now.clients }
    ensures { (s : Server) (taken : Option Taken) → StandsFor state.now taken s
        → result ≡ (sessions.is_current s client conn && table.knows_file s ino) }
{
    state.is_current(client, conn) && state.knows_file(ino)
}

// A request that does is treated.
fn ask_now(
    state: &mut MdsState,
    client: u8,
    conn: u64,
    tid: u64,
    request: Request,
) -> Result<Sending, NoMemory>
    requires from_one { 1 ≤ client }
    requires upto { client ≤ state.old.clients }
    requires can { CanTakeFrom state.old client (Ask conn tid request) }
    requires well { (s : Server) → StandsFor state.old None s
        → (sessions.is_current s client conn && table.knows_asked s request) ≡ true }
    ensures clients { OnOk result (state.new.clients ≡ state.old.clients) }
    ensures row { IfOk result (λ sent. (s : Server) → StandsFor state.old None s → MayTakeFrom s client (Ask conn tid request)
        → Gives state.new sent (taken_from s client (Ask conn tid request))) }
{
    let asked = Asked::new(client, tid, request);
    ask(state, asked)?;
    let sent = send(state)?;
    Ok(sent)
}

// A request.
fn take_ask(
    state: &mut MdsState,
    client: u8,
    conn: u64,
    tid: u64,
    request: Request,
) -> Result<Sending, NoMemory>
    requires from_one { 1 ≤ client }
    requires upto { client ≤ state.old.clients }
    requires can { CanTakeFrom state.old client (Ask conn tid request) }
    ensures clients { OnOk result (state.new.clients ≡ state.old.clients) }
    ensures row { IfOk result (λ sent. (s : Server) → StandsFor state.old None s → MayTakeFrom s client (Ask conn tid request)
        → Gives state.new sent (taken_from s client (Ask conn tid request))) }
{
    if asks_well(state, client, conn, &request) {
        ask_now(state, client, conn, tid, request)
    } else {
        send(state)
    }
}

// A flush that does, and whose numbers can be, is taken.
fn flush_now(
    state: &mut MdsState,
    client: u8,
    conn: u64,
    flush: &FlushMsg,
) -> Result<Sending, NoMemory>
    requires from_one { 1 ≤ client }
    requires upto { client ≤ state.old.clients }
    requires can { CanTakeFrom state.old client (Flush conn flush.now) }
    requires fits { flush_fits flush.now ≡ true }
    requires well { (s : Server) → StandsFor state.old None s
        → (sessions.is_current s client conn && table.knows_file s flush.now.ino) ≡ true }
    ensures clients { OnOk result (state.new.clients ≡ state.old.clients) }
    ensures row { IfOk result (λ sent. (s : Server) → StandsFor state.old None s → MayTakeFrom s client (Flush conn flush.now)
        → Gives state.new sent (taken_from s client (Flush conn flush.now))) }
{
    let many = state.many_held();
    let opened = on_flush(state, client, flush)?;
    let sent = go_on(state, many, opened)?;
    Ok(sent)
}

// A flush whose numbers can be.
fn take_flush(
    state: &mut MdsState,
    client: u8,
    conn: u64,
    flush: &FlushMsg,
) -> Result<Sending, NoMemory>
    requires from_one { 1 ≤ client }
    requires upto { client ≤ state.old.clients }
    requires can { CanTakeFrom state.old client (Flush conn flush.now) }
    requires fits { flush_fits flush.now ≡ true }
    ensures clients { OnOk result (state.new.clients ≡ state.old.clients) }
    ensures row { IfOk result (λ sent. (s : Server) → StandsFor state.old None s → MayTakeFrom s client (Flush conn flush.now)
        → Gives state.new sent (taken_from s client (Flush conn flush.now))) }
{
    if flushes_well(state, client, conn, flush.ino) {
        flush_now(state, client, conn, flush)
    } else {
        send(state)
    }
}

// A reader whose message comes over its connection lets go.
fn drop_now(state: &mut MdsState, client: u8, conn: u64, ino: Ino) -> Result<Sending, NoMemory>
    requires can { CanTakeFrom state.old client (DropRead conn ino) }
    requires well { (s : Server) → StandsFor state.old None s → sessions.is_current s client conn ≡ true }
    ensures clients { OnOk result (state.new.clients ≡ state.old.clients) }
    ensures row { IfOk result (λ sent. (s : Server) → StandsFor state.old None s → MayTakeFrom s client (DropRead conn ino)
        → Gives state.new sent (taken_from s client (DropRead conn ino))) }
{
    let many = state.many_held();
    let opened = on_drop(state, client, ino);
    let sent = go_on(state, many, opened)?;
    Ok(sent)
}

// A reader that lets go.
fn take_drop(state: &mut MdsState, client: u8, conn: u64, ino: Ino) -> Result<Sending, NoMemory>
    requires from_one { 1 ≤ client }
    requires upto { client ≤ state.old.clients }
    requires can { CanTakeFrom state.old client (DropRead conn ino) }
    ensures clients { OnOk result (state.new.clients ≡ state.old.clients) }
    ensures row { IfOk result (λ sent. (s : Server) → StandsFor state.old None s → MayTakeFrom s client (DropRead conn ino)
        → Gives state.new sent (taken_from s client (DropRead conn ino))) }
{
    if state.is_current(client, conn) {
        drop_now(state, client, conn, ino)
    } else {
        send(state)
    }
}

// The request that a client brings along, if it brings one.
fn brought(client: u8, asked: Option<(u64, Request)>) -> Option<Asked>
    ensures { result ≡ brought client asked }
{
    match asked {
        Some(asked) => Some(Asked::new(client, asked.0, asked.1)),
        None => None,
    }
}

// A connection that is taken, and whose numbers can be.
fn connect_now(
    state: &mut MdsState,
    client: u8,
    conn: u64,
    claims: &Claims,
    flushes: &Flushes,
    asked: Option<(u64, Request)>,
) -> Result<Sending, NoMemory>
    requires from_one { 1 ≤ client }
    requires upto { client ≤ state.old.clients }
    requires can { CanTakeFrom state.old client (Connect conn claims.now flushes.now asked) }
    requires fit { list_all flush_fits flushes.now ≡ true }
    requires well { (s : Server) → StandsFor state.old None s
        → table.may_connect s client conn claims.now flushes.now (brought client asked) ≡ true }
    ensures clients { OnOk result (state.new.clients ≡ state.old.clients) }
    ensures row { IfOk result (λ sent. (s : Server) → StandsFor state.old None s
        → MayTakeFrom s client (Connect conn claims.now flushes.now asked)
        → Gives state.new sent (taken_from s client (Connect conn claims.now flushes.now asked))) }
{
    come_back(state, client, conn, claims, flushes)?;
    let again = brought(client, asked);
    connect_with(state, again)?;
    let sent = send(state)?;
    Ok(sent)
}

// A connection whose numbers can be.
fn take_connect(
    state: &mut MdsState,
    client: u8,
    conn: u64,
    claims: &Claims,
    flushes: &Flushes,
    asked: Option<(u64, Request)>,
) -> Result<Sending, NoMemory>
    requires from_one { 1 ≤ client }
    requires upto { client ≤ state.old.clients }
    requires can { CanTakeFrom state.old client (Connect conn claims.now flushes.now asked) }
    requires fit { list_all flush_fits flushes.now ≡ true }
    ensures clients { OnOk result (state.new.clients ≡ state.old.clients) }
    ensures row { IfOk result (λ sent. (s : Server) → StandsFor state.old None s
        → MayTakeFrom s client (Connect conn claims.now flushes.now asked)
        → Gives state.new sent (taken_from s client (Connect conn claims.now flushes.now asked))) }
{
    if may_connect(state, client, conn, claims, flushes, &asked) {
        connect_now(state, client, conn, claims, flushes, asked)
    } else {
        send(state)
    }
}

// A message whose numbers can be. What only the store sends is dropped.
fn take_from(state: &mut MdsState, client: u8, message: ToServer) -> Result<Sending, NoMemory>
    requires from_one { 1 ≤ client }
    requires upto { client ≤ state.old.clients }
    requires can { CanTakeFrom state.old client message }
    requires fits { to_server_fits message ≡ true }
    ensures clients { OnOk result (state.new.clients ≡ state.old.clients) }
    ensures row { IfOk result (λ sent. (s : Server) → StandsFor state.old None s → MayTakeFrom s client message
        → Gives state.new sent (taken_from s client message)) }
{
    match message {
        ToServer::Connect {
            conn,
            claims,
            flushes,
            asked,
        } => take_connect(state, client, conn, &claims, &flushes, asked),
        ToServer::Ask { conn, tid, request } => take_ask(state, client, conn, tid, request),
        ToServer::Flush { conn, flush } => take_flush(state, client, conn, &flush),
        ToServer::DropRead { conn, ino } => take_drop(state, client, conn, ino),
        ToServer::Purged(_) => send(state),
        ToServer::Deleted(_) => send(state),
    }
}

/// The server takes a message of a client, and gives what it sends. One with a number that can't be, one that doesn't come
/// over the client's connection, and one of a file that was never made is dropped: it changes nothing, and takes no memory
/// but for what is sent. It fails only with `NoMemory`.
pub fn take(state: &mut MdsState, client: u8, message: ToServer) -> Result<Sending, NoMemory>
    requires from_one { 1 ≤ client }
    requires upto { client ≤ state.old.clients }
    requires can { CanTake state.old client message }
    ensures clients { OnOk result (state.new.clients ≡ state.old.clients) }
    ensures row { IfOk result (λ sent. (s : Server) → StandsFor state.old None s → MayTake s client message
        → Gives state.new sent (on_take s client message)) }
{
    if fits(&message) {
        take_from(state, client, message)
    } else {
        send(state)
    }
}
