// Who holds what.
ghost use Rattle.std.specs.Prelude.{◌≡◌, ◌≤◌, Option, IfOk, OnOk, true, not, ◌&&◌, map};
ghost use Rattle.std.specs.List.{list_any, list_all};
ghost use Rattle.plain_types.specs.declared.message.Claim.{Claim as Held};
ghost use Rattle.plain_journal.specs.Entries.{state_after};
ghost use Rattle.plain_journal.specs.Legal.{is_made_file};
ghost use Rattle.held_files.specs.Files.{is_write};
ghost use Rattle.cap_state.specs.Table.{Holding};
ghost use Rattle.step_table.specs.Acts.{act, acts, each, LetAllGo, LetGo, Settled};
ghost use Rattle.step_table.specs.Background as background;
ghost use Rattle.step_table.specs.Capabilities as capabilities;
ghost use Rattle.step_table.specs.Flushes.{take_claim};
ghost use Rattle.step_table.specs.ServerState.{Asked as Taken, Holder, Server, is_holder, is_writer};
ghost use Rattle.mds_state.specs.Given.{IsGiven, after_given};
ghost use Rattle.mds_state.specs.Stands.{StandsFor};

use crate::state::MdsState;
use crate::tenures::Given;
use cap_state::tables_stay_tables;
use plain_types::{Claim, Claims};
use server_holders::{
    a_client_comes_back, a_file_is_granted, a_file_is_let_go, a_flush_settles,
    a_refused_request_changes_nothing, conflicts_are_the_tables, holders_are_the_tables,
    modes_are_the_tables,
};
use snap_ids::{Ino, Mode, NoMemory, SnapId};

impl MdsState {
    /// Whether a client holds a file for Write.
    pub fn writes(&self, client: u8, ino: Ino) -> bool
        ensures { (s : Server) (taken : Option Taken) → StandsFor self.now taken s
            → result ≡ list_any (is_writer client ino) s.holders }
    {
        modes_are_the_tables();
        self.tenures.writes(client, ino)
    }

    /// Whether a client holds a file for Read alone.
    pub fn reads(&self, client: u8, ino: Ino) -> bool
        ensures { (s : Server) (taken : Option Taken) → StandsFor self.now taken s
            → result ≡ list_any (λ (h : Holder). is_holder client ino h && not (is_write h.mode)) s.holders }
    {
        modes_are_the_tables();
        self.tenures.reads(client, ino)
    }

    /// Whether a client holds a file and was asked to give it back.
    pub fn is_recalled(&self, client: u8, ino: Ino) -> bool
        ensures { (s : Server) (taken : Option Taken) → StandsFor self.now taken s
            → result ≡ capabilities.is_recalled s ino client }
    {
        modes_are_the_tables();
        self.tenures.is_recalled(client, ino)
    }

    /// A file's holders, with what each holds. Their numbers rise.
    pub fn holders_of(&self, ino: Ino) -> &[(u8, Claim)]
        ensures { (s : Server) (taken : Option Taken) → StandsFor self.now taken s
            → map (λ (h : Holding). h.0) result.now ≡ background.holders_of s ino }
    {
        holders_are_the_tables();
        self.tenures.holders(ino)
    }

    /// A client asks for a file. Where nobody is in conflict with that it holds the file from now on.
    pub fn ask_for(&mut self, client: u8, ino: Ino, mode: Mode) -> Result<Given, NoMemory>
        requires from_one { 1 ≤ client }
        requires upto { client ≤ self.old.clients }
        ensures clients { OnOk result (self.new.clients ≡ self.old.clients) }
        ensures answer { IfOk result (λ given. (s : Server) (taken : Option Taken) → StandsFor self.old taken s
            → IsGiven given s client ino mode) }
        ensures table { IfOk result (λ given. (s : Server) (taken : Option Taken) → StandsFor self.old taken s
            → is_made_file (state_after s.entries) ino ≡ true
            → StandsFor self.new taken (after_given given s client ino mode)) }
    {
        a_file_is_granted();
        a_refused_request_changes_nothing();
        conflicts_are_the_tables();
        modes_are_the_tables();
        tables_stay_tables();
        let applied = self.written.applied();
        let given = self.tenures.ask(client, ino, mode, applied)?;
        Ok(given)
    }

    /// A client has flushed a file up to this id.
    pub fn settle(&mut self, client: u8, ino: Ino, upto: SnapId)
        ensures clients { self.new.clients ≡ self.old.clients }
        ensures table { (s : Server) (taken : Option Taken) → StandsFor self.old taken s
            → StandsFor self.new taken (act s (Settled client ino upto)) }
    {
        a_flush_settles();
        tables_stay_tables();
        self.tenures.settle(client, ino, upto);
    }

    /// A client lets a file go.
    pub fn let_go(&mut self, client: u8, ino: Ino)
        ensures clients { self.new.clients ≡ self.old.clients }
        ensures table { (s : Server) (taken : Option Taken) → StandsFor self.old taken s
            → StandsFor self.new taken (act s (LetGo client ino)) }
    {
        a_file_is_let_go();
        tables_stay_tables();
        self.tenures.let_go(client, ino);
    }

    /// A client that connects holds what it claims in place of all that it held before: each file against which nobody
    /// holds, in their order.
    pub fn come_back(&mut self, client: u8, claims: &Claims) -> Result<(), NoMemory>
        requires from_one { 1 ≤ client }
        requires upto { client ≤ self.old.clients }
        ensures clients { OnOk result (self.new.clients ≡ self.old.clients) }
        ensures table { OnOk result ((s : Server) (taken : Option Taken) → StandsFor self.old taken s
            → list_all (λ (k : Held). is_made_file (state_after s.entries) k.ino) claims.now ≡ true
            → StandsFor self.new taken (acts (act s (LetAllGo client)) (each (take_claim client) (act s (LetAllGo client)) claims.now))) }
    {
        a_client_comes_back();
        tables_stay_tables();
        self.tenures.rebuild(client, claims)?;
        Ok(())
    }
}
