// The state of a metadata server.
ghost use Rattle.std.specs.Prelude.{◌≡◌, [], None, Option, IfOk, OnOk, replicate, true};
ghost use Rattle.plain_types.specs.declared.history.Sent.{Sent as Letter};
ghost use Rattle.session_link.specs.Sessions.{first};
ghost use Rattle.server_sessions.specs.Calls.{lost};
ghost use Rattle.step_table.specs.Messages.{plain_sent};
ghost use Rattle.step_table.specs.ServerState.{Asked as Taken, Server, new_server, send};
ghost use Rattle.mds_state.specs.Stands.{StandsFor, bare, traces_fit};

use crate::tenures::Tenures;
use crate::written::Written;
use held_requests::{Asked, Waiting};
use plain_types::{Inos, Message, Sent};
use server_holders::no_holders_stand;
use server_sessions::{first_sessions_stand, sessions_are_found_again};
use session_link::Session;
use snap_ids::{NoMemory, SnapId};
use std::alloc::Global;
use std::collections::VecDeque;
use std::marker::Model;

/// The state of a metadata server: the tree, the table of snapshots and what isn't durable; the clients' sessions and what
/// they hold; what is made and not sent; the requests that wait. Clients are numbered from 1. The entries that are durable
/// aren't kept. Contracts see the parts, and say each test and each change for every state of the protocol's table that
/// the parts stand for, with the request in hand, which the caller passes. After `NoMemory` the state may only be dropped.
/// Ceph developer guide, CephFS Snapshots.
#[derive(Drop)]
pub struct MdsState {
    pub(crate) clients: u8,
    pub(crate) written: Written,
    pub(crate) sessions: Vec<Session>,
    pub(crate) tenures: Tenures,
    pub(crate) mail: VecDeque<(u64, Sent)>,
    pub(crate) held: Waiting,
    pub(crate) deferred: Waiting,
    pub(crate) operation: Option<Asked>,
    pub(crate) purging: Vec<SnapId>,
    pub(crate) deleting: Inos,
}

impl Model for MdsState {
    ghost use Rattle.std.specs.Prelude.{◌≡◌, vec_len};
    ghost use Rattle.mds_state.specs.Parts.{Parts};

    ghost Value = { Parts };

    ghost view = { λ state. record {
      clients = state.clients;
      written = state.written;
      sessions = state.sessions.items;
      tenures = state.tenures;
      mail = state.mail.items;
      held = state.held;
      deferred = state.deferred;
      operation = state.operation;
      purging = state.purging.items;
      deleting = state.deleting;
    } };

    ghost invariant = { λ state. vec_len state.sessions ≡ state.clients };
}

// The first sessions of so many clients.
fn first_sessions(alloc: Global, clients: u8) -> Result<Vec<Session>, NoMemory>
    ensures { IfOk result (λ sessions. sessions.items ≡ replicate clients first) }
{
    let mut sessions = Vec::new(alloc);
    let mut made = 0;
    while made < clients {
        sessions.push(Session::first())?;
        made += 1;
    }
    Ok(sessions)
}

// A session without connection.
fn lost_session() -> Session
    ensures { result ≡ lost first }
{
    let mut session = Session::first();
    session.lose();
    session
}

// The sessions of so many clients, none of which is connected.
fn lost_sessions(alloc: Global, clients: u8) -> Result<Vec<Session>, NoMemory>
    ensures { IfOk result (λ sessions. sessions.items ≡ replicate clients (lost first)) }
{
    let mut sessions = Vec::new(alloc);
    let mut made = 0;
    while made < clients {
        sessions.push(lost_session())?;
        made += 1;
    }
    Ok(sessions)
}

impl MdsState {
    /// Nothing was written down, and connection 1 of each client is current.
    pub fn new(alloc: Global, clients: u8) -> Result<MdsState, NoMemory>
        ensures parts { IfOk result (λ state. state.clients ≡ clients) }
        ensures table { IfOk result (λ state. StandsFor state None (new_server clients)) }
    {
        first_sessions_stand();
        no_holders_stand();
        let written = Written::new(alloc)?;
        let sessions = first_sessions(alloc, clients)?;
        Ok(MdsState {
            clients,
            written,
            sessions,
            tenures: Tenures::new(alloc),
            mail: VecDeque::new(alloc),
            held: Waiting::new(alloc),
            deferred: Waiting::new(alloc),
            operation: None,
            purging: Vec::new(alloc),
            deleting: Inos::new(alloc),
        })
    }

    // Nothing was written down, and no client is connected.
    pub(crate) fn lost(alloc: Global, clients: u8) -> Result<MdsState, NoMemory>
        ensures parts { IfOk result (λ state. state.clients ≡ clients) }
        ensures table { IfOk result (λ state. StandsFor state None (bare clients [] [])) }
    {
        sessions_are_found_again();
        no_holders_stand();
        let written = Written::new(alloc)?;
        let sessions = lost_sessions(alloc, clients)?;
        Ok(MdsState {
            clients,
            written,
            sessions,
            tenures: Tenures::new(alloc),
            mail: VecDeque::new(alloc),
            held: Waiting::new(alloc),
            deferred: Waiting::new(alloc),
            operation: None,
            purging: Vec::new(alloc),
            deleting: Inos::new(alloc),
        })
    }

    /// How many clients there are.
    pub fn clients(&self) -> u8
        ensures parts { result ≡ self.now.clients }
        ensures table { (s : Server) (taken : Option Taken) → StandsFor self.now taken s → result ≡ s.clients }
    {
        self.clients
    }

    // Makes a message. It waits until all entries of its time are durable.
    pub(crate) fn send(&mut self, to: u8, message: Message) -> Result<(), NoMemory>
        requires { traces_fit message ≡ true }
        ensures sent { OnOk result ((s : Server) (taken : Option Taken) (letter : Letter) → StandsFor self.old taken s
            → plain_sent (record { to = to; message = message }) ≡ letter → StandsFor self.new taken (send s letter)) }
        ensures clients { OnOk result (self.new.clients ≡ self.old.clients) }
    {
        let number = self.written.entries();
        self.mail.push_back((number, Sent { to, message }))?;
        Ok(())
    }
}
