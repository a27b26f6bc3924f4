// What writers are told of the realms of their files.
ghost use Rattle.std.specs.Prelude.{◌≡◌, ◌++◌, ◌∷◌, ◌≤◌, [], List, None, Some, map, Option, IfOk, OnOk, true};
ghost use Rattle.std.specs.List.{list_all};
ghost use Rattle.snap_ids.specs.declared.id.Ino.{Ino as Inode};
ghost use Rattle.plain_types.specs.declared.entry.Entry.{Entry as Line};
ghost use Rattle.plain_journal.specs.Entries.{state_after};
ghost use Rattle.plain_journal.specs.Legal.{is_made_file};
ghost use Rattle.step_table.specs.Messages.{plain_trace, trace_fits};
ghost use Rattle.step_table.specs.ServerState as table;
ghost use Rattle.step_table.specs.ServerState.{Asked as Taken, Changed, Server, tell, trace_of, up_to, written_by};
ghost use Rattle.step_table.specs.Acts.{notices, same_context, same_ids, tell_changed};
ghost use Rattle.mds_state.specs.Changed.{MayTell, changed_in, is_changed, is_made_kept, kept_in};
ghost use Rattle.mds_state.specs.Looks.{HasFile};
ghost use Rattle.mds_state.specs.Stands.{IsState, StandsFor};
ghost use Rattle.mds_state.specs.Writers.{is_writers, written_in};

use crate::state::MdsState;
use plain_types::{Claim, FileTrace, Message, SnapUpdate, ToClient};
use snap_ids::{Ino, Mode, NoMemory, SnapContext, SnapId};

// Whether a client holds the file for Write.
fn is_writers(client: u8, held: &(u8, Claim)) -> bool
    ensures { result ≡ is_writers client held.now }
{
    match held.1.mode {
        Mode::Read => false,
        Mode::Write => held.0 == client,
    }
}

// Whether ids are the same, one by one.
fn same_ids(before: &[SnapId], now: &[SnapId]) -> bool
    ensures { result ≡ same_ids before.now now.now }
{
    let mut left = before;
    let mut other = now;
    while let Some((first, rest)) = left.split_first() {
        match other.split_first() {
            None => return false,
            Some((second, more)) => {
                if first.0 != second.0 {
                    return false;
                }
                left = rest;
                other = more;
            }
        }
    }
    other.is_empty()
}

// Whether a file's context is what it was.
fn same_context(before: &SnapContext, now: &SnapContext) -> bool
    ensures { result ≡ same_context before.now now.now }
{
    before.seq().0 == now.seq().0 && same_ids(before.ids(), now.ids())
}

impl MdsState {
    // Puts a file with its context behind others, where it is held for Write.
    fn keep(
        &self,
        held: &(u8, Claim),
        kept: &mut Vec<(u8, Ino, SnapContext)>,
    ) -> Result<(), NoMemory>
        requires { HasFile self.now.written held.now.1.ino }
        ensures { OnOk result ((s : Server) (taken : Option Taken) → StandsFor self.now taken s
            → is_made_file (state_after s.entries) held.now.1.ino ≡ true
            → kept.new.items ≡ kept.old.items ++ kept_in s.entries (held.now ∷ [])) }
    {
        if let Mode::Write = held.1.mode {
            let context = self.context(held.1.ino)?;
            kept.push((held.0, held.1.ino, context))?;
        }
        Ok(())
    }

    // What is held for Write, with the contexts of the files.
    pub(crate) fn writers(&self) -> Result<Vec<(u8, Ino, SnapContext)>, NoMemory>
        requires { IsState self.now }
        ensures { IfOk result (λ kept. (s : Server) (taken : Option Taken) → StandsFor self.now taken s
            → kept.items ≡ kept_in s.entries self.now.tenures.holdings) }
    {
        let alloc = *self.purging.allocator();
        let mut kept = Vec::new(alloc);
        let mut left = self.tenures.held();
        while let Some((held, rest)) = left.split_first() {
            self.keep(held, &mut kept)?;
            left = rest;
        }
        Ok(kept)
    }

    // Whether a file is the client's, and its context is another one now.
    fn has_changed(&self, client: u8, kept: &(u8, Ino, SnapContext)) -> Result<bool, NoMemory>
        requires { HasFile self.now.written kept.now.1 }
        ensures { IfOk result (λ changed. (s : Server) (taken : Option Taken) → StandsFor self.now taken s
            → is_made_file (state_after s.entries) kept.now.1 ≡ true → changed ≡ is_changed s.entries client kept.now) }
    {
        if kept.0 != client {
            return Ok(false);
        }
        let now = self.context(kept.1)?;
        Ok(!same_context(&kept.2, &now))
    }

    // Puts a file with its realms behind others, where it is the client's and its context is another one now.
    fn add_changed(
        &self,
        client: u8,
        kept: &(u8, Ino, SnapContext),
        files: &mut Vec<FileTrace>,
    ) -> Result<(), NoMemory>
        requires { HasFile self.now.written kept.now.1 }
        ensures fits { OnOk result (list_all trace_fits files.old.items ≡ true → list_all trace_fits files.new.items ≡ true) }
        ensures told { OnOk result ((s : Server) (taken : Option Taken) → StandsFor self.now taken s
            → is_made_file (state_after s.entries) kept.now.1 ≡ true
            → map plain_trace files.new.items
            ≡ map plain_trace files.old.items ++ map (trace_of s) (changed_in s.entries client (kept.now ∷ []))) }
    {
        if self.has_changed(client, kept)? {
            let file = self.file_trace(kept.1)?;
            files.push(file)?;
        }
        Ok(())
    }

    // A client's files among these whose context is another one now, with their realms.
    fn changed(
        &self,
        client: u8,
        kept: &[(u8, Ino, SnapContext)],
    ) -> Result<Vec<FileTrace>, NoMemory>
        requires { MayTell self.now kept.now }
        ensures fits { IfOk result (λ files. list_all trace_fits files.items ≡ true) }
        ensures told { IfOk result (λ files. (s : Server) (taken : Option Taken) → StandsFor self.now taken s
            → list_all (is_made_kept s.entries) kept.now ≡ true
            → map plain_trace files.items ≡ map (trace_of s) (changed_in s.entries client kept.now)) }
    {
        let alloc = *self.purging.allocator();
        let mut files = Vec::new(alloc);
        let mut left = kept;
        while let Some((first, rest)) = left.split_first() {
            self.add_changed(client, first, &mut files)?;
            left = rest;
        }
        Ok(files)
    }

    // A client is told of these files.
    fn tell_files(&mut self, client: u8, files: Vec<FileTrace>) -> Result<(), NoMemory>
        requires from_one { 1 ≤ client }
        requires upto { client ≤ self.old.clients }
        requires fit { list_all trace_fits files.items ≡ true }
        ensures clients { OnOk result (self.new.clients ≡ self.old.clients) }
        ensures table { OnOk result ((s : Server) (taken : Option Taken) (inos : List Inode) → StandsFor self.old taken s
            → map plain_trace files.items ≡ map (trace_of s) inos → StandsFor self.new taken (tell s client (Changed inos))) }
    {
        match self.number(client) {
            None => Ok(()),
            Some(conn) => {
                let stamp = self.stamp();
                let told = ToClient::Notice {
                    conn,
                    stamp,
                    update: SnapUpdate::from_vec(files),
                };
                self.send(client, Message::ToClient(told))?;
                Ok(())
            }
        }
    }

    // A client is told of its files among these whose context is another one now, where there are such.
    fn tell_changed(&mut self, client: u8, kept: &[(u8, Ino, SnapContext)]) -> Result<(), NoMemory>
        requires from_one { 1 ≤ client }
        requires upto { client ≤ self.old.clients }
        requires may { MayTell self.old kept.now }
        ensures clients { OnOk result (self.new.clients ≡ self.old.clients) }
        ensures table { OnOk result ((s : Server) (taken : Option Taken) → StandsFor self.old taken s
            → list_all (is_made_kept s.entries) kept.now ≡ true
            → StandsFor self.new taken (tell_changed s client (changed_in s.entries client kept.now))) }
    {
        let files = self.changed(client, kept)?;
        if !files.is_empty() {
            self.tell_files(client, files)?;
        }
        Ok(())
    }

    // Each client is told of its files whose context is another one than it was.
    pub(crate) fn tell_all(&mut self, kept: &[(u8, Ino, SnapContext)]) -> Result<(), NoMemory>
        requires { MayTell self.old kept.now }
        ensures clients { OnOk result (self.new.clients ≡ self.old.clients) }
        ensures table { OnOk result ((s : Server) (taken : Option Taken) (before : List Line) → StandsFor self.old taken s
            → list_all (is_made_kept s.entries) kept.now ≡ true → kept.now ≡ kept_in before self.old.tenures.holdings
            → StandsFor self.new taken (notices before s (up_to s.clients))) }
    {
        let clients = self.clients;
        let mut told = 0;
        while told < clients {
            told += 1;
            self.tell_changed(told, kept)?;
        }
        Ok(())
    }

    // Puts a file with its realms behind others, where a client holds it for Write.
    fn add_written(
        &self,
        client: u8,
        held: &(u8, Claim),
        files: &mut Vec<FileTrace>,
    ) -> Result<(), NoMemory>
        requires { HasFile self.now.written held.now.1.ino }
        ensures fits { OnOk result (list_all trace_fits files.old.items ≡ true → list_all trace_fits files.new.items ≡ true) }
        ensures told { OnOk result ((s : Server) (taken : Option Taken) → StandsFor self.now taken s
            → is_made_file (state_after s.entries) held.now.1.ino ≡ true
            → map plain_trace files.new.items
            ≡ map plain_trace files.old.items ++ map (trace_of s) (written_in client (held.now ∷ []))) }
    {
        if is_writers(client, held) {
            let file = self.file_trace(held.1.ino)?;
            files.push(file)?;
        }
        Ok(())
    }

    // The files that a client holds for Write, with their realms.
    fn written_files(&self, client: u8) -> Result<Vec<FileTrace>, NoMemory>
        requires { IsState self.now }
        ensures fits { IfOk result (λ files. list_all trace_fits files.items ≡ true) }
        ensures told { IfOk result (λ files. (s : Server) (taken : Option Taken) → StandsFor self.now taken s
            → map plain_trace files.items ≡ map (trace_of s) (written_by s client)) }
    {
        let alloc = *self.purging.allocator();
        let mut files = Vec::new(alloc);
        let mut left = self.tenures.held();
        while let Some((held, rest)) = left.split_first() {
            self.add_written(client, held, &mut files)?;
            left = rest;
        }
        Ok(files)
    }

    /// A client that has connected is told up to which number its flushes are written down, and the realms of the files
    /// that it holds for Write.
    pub fn welcome(&mut self, client: u8, conn: u64) -> Result<(), NoMemory>
        requires from_one { 1 ≤ client }
        requires upto { client ≤ self.old.clients }
        requires state { IsState self.old }
        ensures clients { OnOk result (self.new.clients ≡ self.old.clients) }
        ensures table { OnOk result ((s : Server) (taken : Option Taken) → StandsFor self.old taken s
            → StandsFor self.new taken (table.welcome s client conn)) }
    {
        let stamp = self.stamp();
        let flushed = self.last_flush(client);
        let files = self.written_files(client)?;
        let told = ToClient::Welcome {
            conn,
            stamp,
            flushed,
            update: SnapUpdate::from_vec(files),
        };
        self.send(client, Message::ToClient(told))?;
        Ok(())
    }
}
