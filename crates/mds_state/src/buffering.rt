// Entries that are written down.
ghost use Rattle.std.specs.Prelude.{◌≡◌, ◌<◌, ◌≤◌, true, false, None, Some, Option, OnOk, vec_len};
ghost use Rattle.journal_laws.specs.Entries.{changes_contexts};
ghost use Rattle.plain_types.specs.declared.change.Change.{Change as Made};
ghost use Rattle.plain_types.specs.declared.entry.Entry.{Entry as Line};
ghost use Rattle.plain_journal.specs.Entries.{change_in};
ghost use Rattle.plain_journal.specs.Table.{is_flush};
ghost use Rattle.server_sessions.specs.Calls.{at_client, called};
ghost use Rattle.step_table.specs.Acts.{act, entry_for, Buffer, MakeEffect, Prepare};
ghost use Rattle.step_table.specs.ServerState.{Asked as Taken, Server};
ghost use Rattle.mds_state.specs.Stands.{MayBuffer, MayFollow, StandsFor, entered};

use crate::change::note;
use crate::state::MdsState;
use held_requests::Asked;
use plain_types::{Entry, What};
use server_sessions::calls_are_fine;
use session_link::Session;
use snap_ids::NoMemory;

// Whether an entry may change the context of a file.
fn changes_contexts(what: &What) -> bool
    ensures { result ≡ changes_contexts what.now }
{
    match what {
        What::Mksnap { .. } | What::Link { .. } | What::Purgedone { .. } => true,
        _ => false,
    }
}

// The sessions after an entry.
fn note_in(sessions: &mut Vec<Session>, entry: &Entry)
    requires upto { entry.now.client ≤ vec_len sessions.old }
    requires flush { is_flush entry.now.what ≡ true
        → (at_client sessions.old.items entry.now.client).last_flush < entry.now.number }
    ensures called { sessions.new.items ≡ called entry.now sessions.old.items }
    ensures len { vec_len sessions.new ≡ vec_len sessions.old }
{
    if entry.client != 0 {
        let session = &mut sessions[usize::from(entry.client) - 1];
        note(session, entry);
    }
}

impl MdsState {
    // One more entry, of which nobody is told.
    pub(crate) fn enter(&mut self, entry: Entry) -> Result<(), NoMemory>
        requires { MayBuffer self.old entry }
        ensures clients { OnOk result (self.new.clients ≡ self.old.clients) }
        ensures tenures { OnOk result (self.new.tenures ≡ self.old.tenures) }
        ensures table { OnOk result ((s : Server) (taken : Option Taken) → StandsFor self.old taken s
            → MayFollow s.clients s.entries entry → StandsFor self.new taken (entered s entry)) }
    {
        note_in(&mut self.sessions, &entry);
        self.written.enter(entry)?;
        Ok(())
    }

    // One more entry, and each client is told of the files that it holds for Write and whose context that changes.
    fn enter_telling(&mut self, entry: Entry) -> Result<(), NoMemory>
        requires { MayBuffer self.old entry }
        ensures clients { OnOk result (self.new.clients ≡ self.old.clients) }
        ensures table { OnOk result ((s : Server) (taken : Option Taken) → StandsFor self.old taken s
            → MayFollow s.clients s.entries entry → StandsFor self.new taken (act s (Buffer entry))) }
    {
        let kept = self.writers()?;
        self.enter(entry)?;
        self.tell_all(&kept)?;
        Ok(())
    }

    /// One more entry, which isn't durable. The writers of files whose contexts it changes are told.
    pub fn buffer(&mut self, entry: Entry) -> Result<(), NoMemory>
        requires may { MayBuffer self.old entry }
        ensures clients { OnOk result (self.new.clients ≡ self.old.clients) }
        ensures table { OnOk result ((s : Server) (taken : Option Taken) → StandsFor self.old taken s
            → MayFollow s.clients s.entries entry → StandsFor self.new taken (act s (Buffer entry))) }
    {
        if changes_contexts(&entry.what) {
            self.enter_telling(entry)?;
            return Ok(());
        }
        self.enter(entry)?;
        Ok(())
    }

    /// The request in hand has its effect, which this entry says. The writers of files whose contexts it changes are told.
    pub fn effect(&mut self, entry: Entry) -> Result<(), NoMemory>
        requires may { MayBuffer self.old entry }
        ensures clients { OnOk result (self.new.clients ≡ self.old.clients) }
        ensures table { OnOk result ((s : Server) (a : Taken) (change : Made) → StandsFor self.old (Some a) s
            → MayFollow s.clients s.entries entry → change_in entry.what ≡ Some change → entry ≡ entry_for a entry.what
            → StandsFor self.new (Some a) (act s (MakeEffect change))) }
    {
        self.buffer(entry)?;
        Ok(())
    }

    // A request becomes that of the outstanding operation.
    fn set_operation(&mut self, asked: Asked)
        ensures clients { self.new.clients ≡ self.old.clients }
        ensures may { (entry : Line) → MayBuffer self.old entry → MayBuffer self.new entry }
        ensures table { (s : Server) → StandsFor self.old (Some asked) s
            → StandsFor self.new None (record s { operation = Some asked; hand = None }) }
    {
        self.operation = Some(asked);
    }

    /// The request in hand becomes the outstanding operation on the table of snapshots, which this entry prepares.
    pub fn prepare(&mut self, asked: Asked, entry: Entry) -> Result<(), NoMemory>
        requires may { MayBuffer self.old entry }
        ensures clients { OnOk result (self.new.clients ≡ self.old.clients) }
        ensures table { OnOk result ((s : Server) → StandsFor self.old (Some asked) s
            → MayFollow s.clients s.entries entry → entry ≡ entry_for asked entry.what
            → StandsFor self.new None (act s (Prepare entry.what))) }
    {
        self.set_operation(asked);
        self.buffer(entry)?;
        Ok(())
    }
}
