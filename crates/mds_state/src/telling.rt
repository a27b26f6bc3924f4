// What clients and the store are told.
ghost use Rattle.std.specs.Prelude.{◌≡◌, ◌+◌, ◌≤◌, ◌<◌, None, Some, Option, IfOk, OnOk, true};
ghost use Rattle.snap_ids.specs.declared.id.TheConstants.{NOSNAP};
ghost use Rattle.plain_journal.specs.Coverage.{context};
ghost use Rattle.plain_journal.specs.Entries.{state_after};
ghost use Rattle.plain_journal.specs.Legal.{is_made_file};
ghost use Rattle.plain_journal.specs.Settled.{settled_size};
ghost use Rattle.step_table.specs.Acts.{act, acts, AnswerIt, GrantIt, MarkRecalled, TellAck, TellRecall, TellRestart, SendPurge, SendDelete};
ghost use Rattle.step_table.specs.Capabilities as capabilities;
ghost use Rattle.step_table.specs.Messages.{plain_trace, trace_fits};
ghost use Rattle.step_table.specs.ServerState.{Answered, Asked as Taken, Granted, Server, stamp, tell, trace_of};
ghost use Rattle.mds_state.specs.Looks.{HasFile};
ghost use Rattle.mds_state.specs.Noted.{delete_noted, purge_noted};
ghost use Rattle.mds_state.specs.Stands.{StandsFor};

use crate::state::MdsState;
use held_requests::Asked;
use plain_types::{Answer, FileTrace, Message, Stamp, ToClient, ToStore};
use server_holders::a_recall_is_marked;
use snap_ids::{Ino, Mode, NoMemory, SnapContext, SnapId};

impl MdsState {
    // The stamp of a message that is made now.
    pub(crate) fn stamp(&self) -> Stamp
        ensures { (s : Server) (taken : Option Taken) → StandsFor self.now taken s → result ≡ stamp s }
    {
        self.written.stamp()
    }

    // A client is told its answer.
    fn tell_answer(&mut self, client: u8, tid: u64, answer: Answer) -> Result<(), NoMemory>
        requires from_one { 1 ≤ client }
        requires upto { client ≤ self.old.clients }
        ensures clients { OnOk result (self.new.clients ≡ self.old.clients) }
        ensures table { OnOk result ((s : Server) (taken : Option Taken) → StandsFor self.old taken s
            → StandsFor self.new taken (tell s client (Answered tid answer))) }
    {
        match self.number(client) {
            None => Ok(()),
            Some(conn) => {
                let stamp = self.stamp();
                let told = ToClient::Reply {
                    conn,
                    tid,
                    stamp,
                    answer,
                };
                self.send(client, Message::ToClient(told))?;
                Ok(())
            }
        }
    }

    // A client is told that it has a file, with the file's size and realms.
    fn tell_grant(&mut self, client: u8, tid: u64, ino: Ino, mode: Mode) -> Result<(), NoMemory>
        requires from_one { 1 ≤ client }
        requires upto { client ≤ self.old.clients }
        requires file { HasFile self.old.written ino }
        ensures clients { OnOk result (self.new.clients ≡ self.old.clients) }
        ensures table { OnOk result ((s : Server) (taken : Option Taken) → StandsFor self.old taken s
            → is_made_file (state_after s.entries) ino ≡ true
            → StandsFor self.new taken (tell s client (Granted tid ino mode))) }
    {
        match self.number(client) {
            None => Ok(()),
            Some(conn) => {
                let stamp = self.stamp();
                let size = self.size(ino);
                let file = self.file_trace(ino)?;
                let told = ToClient::Grant {
                    conn,
                    tid,
                    stamp,
                    ino,
                    mode,
                    size,
                    file,
                };
                self.send(client, Message::ToClient(told))?;
                Ok(())
            }
        }
    }

    /// A flush of this number is acknowledged.
    pub fn tell_ack(&mut self, client: u8, number: u64) -> Result<(), NoMemory>
        requires from_one { 1 ≤ client }
        requires upto { client ≤ self.old.clients }
        ensures clients { OnOk result (self.new.clients ≡ self.old.clients) }
        ensures table { OnOk result ((s : Server) (taken : Option Taken) → StandsFor self.old taken s
            → StandsFor self.new taken (act s (TellAck client number))) }
    {
        match self.number(client) {
            None => Ok(()),
            Some(conn) => {
                let stamp = self.stamp();
                let told = ToClient::FlushAck {
                    conn,
                    stamp,
                    number,
                };
                self.send(client, Message::ToClient(told))?;
                Ok(())
            }
        }
    }

    // A client is told to give a file back.
    fn tell_recall(&mut self, client: u8, ino: Ino) -> Result<(), NoMemory>
        requires from_one { 1 ≤ client }
        requires upto { client ≤ self.old.clients }
        ensures clients { OnOk result (self.new.clients ≡ self.old.clients) }
        ensures table { OnOk result ((s : Server) (taken : Option Taken) → StandsFor self.old taken s
            → StandsFor self.new taken (act s (TellRecall client ino))) }
    {
        match self.number(client) {
            None => Ok(()),
            Some(conn) => {
                let stamp = self.stamp();
                let told = ToClient::Recall { conn, stamp, ino };
                self.send(client, Message::ToClient(told))?;
                Ok(())
            }
        }
    }

    /// The request in hand is answered, and is done with. A client that isn't connected is told nothing.
    pub fn answer(&mut self, asked: &Asked, answer: Answer) -> Result<(), NoMemory>
        requires from_one { 1 ≤ asked.now.client }
        requires upto { asked.now.client ≤ self.old.clients }
        ensures clients { OnOk result (self.new.clients ≡ self.old.clients) }
        ensures table { OnOk result ((s : Server) → StandsFor self.old (Some asked.now) s
            → StandsFor self.new None (act s (AnswerIt answer))) }
    {
        self.tell_answer(asked.client(), asked.tid(), answer)?;
        Ok(())
    }

    /// The request in hand is granted a file, and is done with. The client is told the file's size and its realms.
    pub fn grant(&mut self, asked: &Asked, ino: Ino, mode: Mode) -> Result<(), NoMemory>
        requires from_one { 1 ≤ asked.now.client }
        requires upto { asked.now.client ≤ self.old.clients }
        requires file { HasFile self.old.written ino }
        ensures clients { OnOk result (self.new.clients ≡ self.old.clients) }
        ensures table { OnOk result ((s : Server) → StandsFor self.old (Some asked.now) s
            → is_made_file (state_after s.entries) ino ≡ true → StandsFor self.new None (act s (GrantIt ino mode))) }
    {
        self.tell_grant(asked.client(), asked.tid(), ino, mode)?;
        Ok(())
    }

    /// The server has begun anew; the client is told, connected or not.
    pub fn tell_restart(&mut self, client: u8) -> Result<(), NoMemory>
        ensures clients { OnOk result (self.new.clients ≡ self.old.clients) }
        ensures table { OnOk result ((s : Server) (taken : Option Taken) → StandsFor self.old taken s
            → StandsFor self.new taken (act s (TellRestart client))) }
    {
        let stamp = self.stamp();
        let told = ToClient::Restarted { stamp };
        self.send(client, Message::ToClient(told))?;
        Ok(())
    }

    // A file's size as flushes settled it.
    fn size(&self, ino: Ino) -> u32
        ensures { (s : Server) (taken : Option Taken) → StandsFor self.now taken s
            → result ≡ settled_size s.entries ino NOSNAP }
    {
        self.written.size(ino)
    }

    // A file with the realms that contain it.
    pub(crate) fn file_trace(&self, ino: Ino) -> Result<FileTrace, NoMemory>
        requires { HasFile self.now.written ino }
        ensures told { IfOk result (λ file. (s : Server) (taken : Option Taken) → StandsFor self.now taken s
            → is_made_file (state_after s.entries) ino ≡ true → plain_trace file ≡ trace_of s ino) }
        ensures fits { IfOk result (λ file. trace_fits file ≡ true) }
    {
        self.written.file_trace(ino)
    }

    // A file's context.
    pub(crate) fn context(&self, ino: Ino) -> Result<SnapContext, NoMemory>
        requires { HasFile self.now.written ino }
        ensures { IfOk result (λ seen. (s : Server) (taken : Option Taken) → StandsFor self.now taken s
            → is_made_file (state_after s.entries) ino ≡ true → seen ≡ context s.entries ino) }
    {
        self.written.context(ino)
    }

    // A client is marked as asked to give a file back.
    fn mark(&mut self, client: u8, ino: Ino) -> Result<(), NoMemory>
        ensures clients { OnOk result (self.new.clients ≡ self.old.clients) }
        ensures table { OnOk result ((s : Server) (taken : Option Taken) → StandsFor self.old taken s
            → StandsFor self.new taken (act s (MarkRecalled client ino))) }
    {
        a_recall_is_marked();
        self.tenures.mark(client, ino)?;
        Ok(())
    }

    /// A client is asked to give a file back, unless it was asked before in its tenure.
    pub fn recall(&mut self, client: u8, ino: Ino) -> Result<(), NoMemory>
        requires from_one { 1 ≤ client }
        requires upto { client ≤ self.old.clients }
        ensures clients { OnOk result (self.new.clients ≡ self.old.clients) }
        ensures table { OnOk result ((s : Server) (taken : Option Taken) → StandsFor self.old taken s
            → StandsFor self.new taken (acts s (capabilities.recall s ino client))) }
    {
        if self.is_recalled(client, ino) {
            return Ok(());
        }
        self.mark(client, ino)?;
        self.tell_recall(client, ino)?;
        Ok(())
    }

    // The number of the store's node, which is behind the last client.
    fn store(&self) -> u8
        requires { self.now.clients < 255 }
        ensures { result ≡ self.now.clients + 1 }
    {
        self.clients + 1
    }

    /// The store is told to drop a removed snapshot.
    pub fn send_purge(&mut self, id: SnapId) -> Result<(), NoMemory>
        requires room { self.old.clients < 255 }
        ensures clients { OnOk result (self.new.clients ≡ self.old.clients) }
        ensures table { OnOk result ((s : Server) (taken : Option Taken) → StandsFor self.old taken s
            → StandsFor self.new taken (act s (SendPurge id))) }
    {
        let store = self.store();
        self.note_purge(id)?;
        self.send(store, Message::ToStore(ToStore::Purge(id)))?;
        Ok(())
    }

    // The purge of an id is sent.
    fn note_purge(&mut self, id: SnapId) -> Result<(), NoMemory>
        ensures clients { OnOk result (self.new.clients ≡ self.old.clients) }
        ensures table { OnOk result ((s : Server) (taken : Option Taken) → StandsFor self.old taken s
            → StandsFor self.new taken (purge_noted s id)) }
    {
        self.purging.push(id)?;
        Ok(())
    }

    // The deletion of a file is sent.
    fn note_delete(&mut self, ino: Ino) -> Result<(), NoMemory>
        ensures clients { OnOk result (self.new.clients ≡ self.old.clients) }
        ensures table { OnOk result ((s : Server) (taken : Option Taken) → StandsFor self.old taken s
            → StandsFor self.new taken (delete_noted s ino)) }
    {
        self.deleting.push(ino)?;
        Ok(())
    }

    /// The store is told to delete a file.
    pub fn send_delete(&mut self, ino: Ino) -> Result<(), NoMemory>
        requires room { self.old.clients < 255 }
        requires file { HasFile self.old.written ino }
        ensures clients { OnOk result (self.new.clients ≡ self.old.clients) }
        ensures table { OnOk result ((s : Server) (taken : Option Taken) → StandsFor self.old taken s
            → is_made_file (state_after s.entries) ino ≡ true → StandsFor self.new taken (act s (SendDelete ino))) }
    {
        let store = self.store();
        let context = self.context(ino)?;
        self.note_delete(ino)?;
        let order = ToStore::Delete { ino, context };
        self.send(store, Message::ToStore(order))?;
        Ok(())
    }
}
