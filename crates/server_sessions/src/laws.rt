// The sessions from one state of the table to the next.
ghost use Rattle.std.specs.Prelude.{◌≡◌, ◌≤◌, ◌<◌, ℕ, List, map, length, replicate, None, Some, false, true};
ghost use Rattle.plain_types.specs.declared.change.Change.{Change};
ghost use Rattle.plain_types.specs.declared.entry.Entry.{Entry};
ghost use Rattle.plain_tree.specs.Line.{answer_to};
ghost use Rattle.plain_journal.specs.Entries.{change_in};
ghost use Rattle.plain_journal.specs.Table.{is_flush, last_flush};
ghost use Rattle.session_link.specs.Sessions as sessions;
ghost use Rattle.session_link.specs.Sessions.{Link, first, kept_for, has_effect};
ghost use Rattle.step_table.specs.ServerState.{Asked, Server, connection, is_current, new_server};
ghost use Rattle.step_table.specs.Requests.{kept_answer};
ghost use Rattle.step_table.specs.Flushes.{connected};
ghost use Rattle.step_table.specs.ServerRows.{left_with};
ghost use Rattle.server_sessions.specs.Sessions.{session_of, SessionsStand};
ghost use Rattle.server_sessions.specs.Calls.{at_client, with_session, connected_at, lost, noted, called, IsOf, AllOf, Enters, sessions_from};

/// The first session for each client stands for the first state: connection 1 is current for all.
pub fn first_sessions_stand()
    ensures { (clients : ℕ) → SessionsStand (replicate clients first) (new_server clients) }
{}

/// There are as many sessions as clients, and each client's is found by its number.
pub fn each_client_has_a_session()
    ensures as_many { (links : List Link) (s : Server) → SessionsStand links s → length links ≡ s.clients }
    ensures found { (links : List Link) (s : Server) (client : ℕ) → SessionsStand links s → 1 ≤ client
        → client ≤ s.clients → at_client links client ≡ session_of s client }
{}

/// What a session answers is what the table says: whether a connection is current, which number it has, the answer that is
/// kept for a request, and the last flush.
pub fn answers_are_the_tables()
    ensures current { (links : List Link) (s : Server) (client conn : ℕ) → SessionsStand links s
        → sessions.is_current (session_of s client) conn ≡ is_current s client conn }
    ensures number { (s : Server) (client : ℕ) → (session_of s client).current ≡ connection s client }
    ensures kept { (s : Server) (a : Asked) → kept_for a.tid (session_of s a.client).completed ≡ kept_answer s a }
    ensures flushed { (s : Server) (client : ℕ) → (session_of s client).last_flush ≡ last_flush s.entries client }
{}

/// A connection with a number above the current one is taken.
pub fn a_connection_is_taken()
    ensures { (links : List Link) (s : Server) (client conn : ℕ) → SessionsStand links s → 1 ≤ client
        → client ≤ s.clients → connection s client < conn
        → SessionsStand (with_session client (connected_at conn) links) (connected s client conn) }
{}

/// Where all entries are left after a restart, each session loses its connection and keeps the rest.
pub fn a_restart_loses_all_connections()
    ensures { (links : List Link) (s : Server) → SessionsStand links s
        → SessionsStand (map lost links) (left_with s (length s.entries)) }
{}

/// Where fewer are left, the sessions are found again from these.
pub fn sessions_are_found_again()
    ensures { (s : Server) (upto : ℕ) → AllOf s.clients (left_with s upto).entries
        → SessionsStand (sessions_from s.clients (left_with s upto).entries) (left_with s upto) }
{}

/// An entry leads from the sessions before it to those with it: an effect of a request is kept, and a flush counts as taken.
pub fn entries_lead_on()
    ensures { (links : List Link) (s new : Server) (e : Entry) → SessionsStand links s → Enters e s new
        → IsOf s.clients e → SessionsStand (called e links) new }
{}

/// The conditions of these calls hold: the answer to each change is one of an effect, and a flush that wasn't taken before
/// is above the last one.
pub fn calls_are_fine()
    ensures effect { (change : Change) → has_effect (answer_to change) ≡ true }
    ensures flush { (links : List Link) (s : Server) (client number : ℕ) → SessionsStand links s → 1 ≤ client
        → client ≤ s.clients → last_flush s.entries client < number → (at_client links client).last_flush < number }
{}

/// An entry that is no flush and says no change leaves all sessions.
pub fn other_entries_leave_sessions()
    ensures { (links : List Link) (s new : Server) (e : Entry) → SessionsStand links s → Enters e s new
        → IsOf s.clients e → is_flush e.what ≡ false → change_in e.what ≡ None → SessionsStand links new }
{}
