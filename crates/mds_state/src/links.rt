// What is asked of the clients' links.
ghost use Rattle.std.specs.Prelude.{◌≡◌, ◌==◌, ◌≤◌, ◌<◌, not, if◌then◌else◌, None, Some, Option, vec_len};
ghost use Rattle.std.specs.List.{list_all};
ghost use Rattle.plain_journal.specs.Table as journal;
ghost use Rattle.server_sessions.specs.Calls.{at_client, connected_at, with_session};
ghost use Rattle.step_table.specs.Flushes as flushes;
ghost use Rattle.step_table.specs.Requests as requests;
ghost use Rattle.step_table.specs.ServerState as table;
ghost use Rattle.step_table.specs.ServerState.{Asked as Taken, Server};
ghost use Rattle.mds_state.specs.Stands.{StandsFor};

use crate::state::MdsState;
use held_requests::Asked;
use plain_types::Answer;
use session_link::Session;

// A connection's number, if it is one.
fn some_number(conn: u64) -> Option<u64>
    ensures { result ≡ (if conn == 0 then None else Some conn) }
{
    if conn == 0 { None } else { Some(conn) }
}

// Whether each session has a connection.
fn are_connected(sessions: &[Session]) -> bool
    ensures { result ≡ list_all (λ link. not (link.current == 0)) sessions.now }
{
    sessions.iter().all(|session| session.current() != 0)
}

// A session has this connection from now on.
fn connect(session: &mut Session, conn: u64)
    ensures { session.old.current < conn → session.new ≡ connected_at conn session.old }
{
    if session.current() < conn {
        match session.connect(conn) {
            Ok(()) => {}
            Err(_) => {}
        }
    }
}

// A client's session has this connection from now on.
fn connect_in(sessions: &mut Vec<Session>, client: u8, conn: u64)
    requires from_one { 1 ≤ client }
    requires upto { client ≤ vec_len sessions.old }
    ensures table { (at_client sessions.old.items client).current < conn
        → sessions.new.items ≡ with_session client (connected_at conn) sessions.old.items }
    ensures len { vec_len sessions.new ≡ vec_len sessions.old }
{
    let session = &mut sessions[usize::from(client) - 1];
    connect(session, conn);
}

impl MdsState {
    // A client's session.
    fn session(&self, client: u8) -> &Session
        requires from_one { 1 ≤ client }
        requires upto { client ≤ self.now.clients }
        ensures { result.now ≡ at_client self.now.sessions client }
    {
        &self.sessions[usize::from(client) - 1]
    }

    /// Whether each client is connected.
    pub fn all_connected(&self) -> bool
        ensures { (s : Server) (taken : Option Taken) → StandsFor self.now taken s → result ≡ table.all_connected s }
    {
        are_connected(&self.sessions)
    }

    /// Whether a connection is the client's current one.
    pub fn is_current(&self, client: u8, conn: u64) -> bool
        requires from_one { 1 ≤ client }
        requires upto { client ≤ self.now.clients }
        ensures { (s : Server) (taken : Option Taken) → StandsFor self.now taken s
            → result ≡ table.is_current s client conn }
    {
        self.session(client).is_current(conn)
    }

    /// The number of a client's connection, 0 where it isn't connected.
    pub fn connection(&self, client: u8) -> u64
        requires from_one { 1 ≤ client }
        requires upto { client ≤ self.now.clients }
        ensures { (s : Server) (taken : Option Taken) → StandsFor self.now taken s
            → result ≡ table.connection s client }
    {
        self.session(client).current()
    }

    // The number of a client's connection, if it is connected.
    pub(crate) fn number(&self, client: u8) -> Option<u64>
        requires from_one { 1 ≤ client }
        requires upto { client ≤ self.now.clients }
        ensures { (s : Server) (taken : Option Taken) → StandsFor self.now taken s
            → result ≡ table.number_of s.current client }
    {
        some_number(self.connection(client))
    }

    /// The number of the last flush of a client that was taken, 0 where there was none.
    pub fn last_flush(&self, client: u8) -> u64
        requires from_one { 1 ≤ client }
        requires upto { client ≤ self.now.clients }
        ensures { (s : Server) (taken : Option Taken) → StandsFor self.now taken s
            → result ≡ journal.last_flush s.entries client }
    {
        self.session(client).last_flush()
    }

    /// The answer that was given to a request, where it is the client's last one that had an effect.
    pub fn kept_answer(&self, asked: &Asked) -> Option<Answer>
        requires from_one { 1 ≤ asked.now.client }
        requires upto { asked.now.client ≤ self.now.clients }
        ensures { (s : Server) (taken : Option Taken) → StandsFor self.now taken s
            → result ≡ requests.kept_answer s asked.now }
    {
        self.session(asked.client()).completed(asked.tid())
    }

    /// Whether a request is that of the outstanding operation.
    pub fn is_operation(&self, asked: &Asked) -> bool
        ensures { (s : Server) (taken : Option Taken) → StandsFor self.now taken s
            → result ≡ requests.is_operation s asked.now }
    {
        match &self.operation {
            Some(operation) => {
                operation.client() == asked.client() && operation.tid() == asked.tid()
            }
            None => false,
        }
    }

    /// A client has this connection from now on, whose number is above that of its last one. What it asked before is
    /// dropped, held or deferred: it asks again with what it brings along.
    pub fn connected(&mut self, client: u8, conn: u64)
        requires from_one { 1 ≤ client }
        requires upto { client ≤ self.old.clients }
        ensures clients { self.new.clients ≡ self.old.clients }
        ensures table { (s : Server) (taken : Option Taken) → StandsFor self.old taken s → table.connection s client < conn
            → StandsFor self.new taken (flushes.connected s client conn) }
    {
        connect_in(&mut self.sessions, client, conn);
        self.held.drop_of(client);
        self.deferred.drop_of(client);
    }
}
