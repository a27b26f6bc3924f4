// What is asked of the tree, of the table of snapshots and of the journal.
ghost use Rattle.std.specs.Prelude.{◌≡◌, ◌&&◌, false, true, length, Option, None, Some, Ok, Err, IfOk};
ghost use Rattle.snap_ids.specs.declared.id.SnapId.{SnapId as Id};
ghost use Rattle.snap_ids.specs.Context.{is_listed};
ghost use Rattle.plain_types.specs.declared.answer.Answer.TheVariants.{Refused};
ghost use Rattle.plain_types.specs.declared.answer.Refusal.{Refusal as Reason};
ghost use Rattle.plain_types.specs.declared.change.Change.{Change as Made};
ghost use Rattle.plain_tree.specs.Request.{change_asked};
ghost use Rattle.plain_journal.specs.Answers.{answer_to};
ghost use Rattle.plain_journal.specs.Coverage.{covering, is_purged};
ghost use Rattle.plain_journal.specs.Entries.{applied, state_after};
ghost use Rattle.plain_journal.specs.Legal.{is_made_file};
ghost use Rattle.plain_journal.specs.Table as journal;
ghost use Rattle.meta_state.specs.Decisions.{IsAnswer, IsLegal, IsPut, query_of};
ghost use Rattle.meta_state.specs.Queries.{IsPast};
ghost use Rattle.meta_state.specs.declared.decide.Decision.TheVariants.{Say};
ghost use Rattle.server_holders.specs.Answers.{owing_by};
ghost use Rattle.step_table.specs.Capabilities as capabilities;
ghost use Rattle.step_table.specs.Flushes as flushes;
ghost use Rattle.step_table.specs.Requests as requests;
ghost use Rattle.step_table.specs.ServerState as table;
ghost use Rattle.step_table.specs.ServerState.{Asked as Taken, Server};
ghost use Rattle.mds_state.specs.Stands.{IsState, StandsFor};

use crate::state::MdsState;
use meta_state::Decision;
use plain_types::{Answer, Query, Request};
use server_holders::owed_flushes_are_the_tables;
use snap_ids::{Ino, NoMemory, SnapId};

// The client that owes the flush of a file, where a snapshot with this id covers that and this is its writer.
fn owed_by(writer: Option<(u8, SnapId)>, id: SnapId) -> Option<u8>
    ensures { result ≡ owing_by true id writer }
{
    match writer {
        None => None,
        Some((client, settled)) => { if settled.0 < id.0 { Some(client) } else { None } }
    }
}

impl MdsState {
    /// How many entries there are.
    pub fn entries(&self) -> u64
        ensures { (s : Server) (taken : Option Taken) → StandsFor self.now taken s → result ≡ length s.entries }
    {
        self.written.entries()
    }

    /// How many of them are durable.
    pub fn durable(&self) -> u64
        ensures { (s : Server) (taken : Option Taken) → StandsFor self.now taken s → result ≡ s.durable }
    {
        self.written.durable()
    }

    /// How many of them aren't.
    pub fn buffered(&self) -> usize
        ensures { (s : Server) (taken : Option Taken) → StandsFor self.now taken s → result ≡ table.buffered s }
    {
        self.written.buffered().len()
    }

    /// The id that a snapshot gets which is prepared now.
    pub fn next_id(&self) -> SnapId
        ensures { (s : Server) (taken : Option Taken) → StandsFor self.now taken s → result ≡ requests.next_id s }
    {
        SnapId(self.written.next())
    }

    /// The id of the last snapshot that was made.
    pub fn applied(&self) -> SnapId
        ensures { (s : Server) (taken : Option Taken) → StandsFor self.now taken s
            → result ≡ record { 0 = applied s.entries } }
    {
        self.written.applied()
    }

    /// The operation on the table of snapshots that is outstanding, with the number of its entry.
    pub fn outstanding(&self) -> Option<(SnapId, u64)>
        ensures { (s : Server) (taken : Option Taken) → StandsFor self.now taken s
            → result ≡ journal.outstanding s.entries }
    {
        self.written.outstanding()
    }

    /// Whether an operation is outstanding, or, where they count, others are deferred.
    pub fn is_busy(&self, alone: bool) -> bool
        ensures { (s : Server) (taken : Option Taken) → StandsFor self.now taken s
            → result ≡ requests.is_busy alone s }
    {
        self.outstanding().is_some() || (!alone && !self.none_deferred())
    }

    /// Whether an inode is a file that was made, whatever became of it since.
    pub fn knows_file(&self, ino: Ino) -> bool
        ensures { (s : Server) (taken : Option Taken) → StandsFor self.now taken s
            → result ≡ flushes.knows_file s ino }
    {
        self.written.knows_file(ino)
    }

    /// The number of the last barrier to which all clients came.
    pub fn barrier(&self) -> u64
        ensures { (s : Server) (taken : Option Taken) → StandsFor self.now taken s
            → result ≡ journal.barrier s.entries }
    {
        self.written.barrier()
    }

    // The client that holds a file for Write, and the id up to which it has flushed. It owes the file's flush for each
    // snapshot above that which covers the file.
    fn writer(&self, ino: Ino) -> Option<(u8, SnapId)>
        ensures { (s : Server) (taken : Option Taken) (id : Id) → StandsFor self.now taken s
            → owing_by (is_listed id (covering s.entries ino)) id result ≡ capabilities.owing s ino id }
    {
        owed_flushes_are_the_tables();
        self.tenures.writer(ino)
    }

    // Whether a snapshot that isn't purged covers a file that was made.
    fn covers(&self, ino: Ino, id: SnapId) -> Result<bool, NoMemory>
        requires state { IsState self.now }
        ensures { IfOk result (λ covers. (s : Server) (taken : Option Taken) → StandsFor self.now taken s
            → is_purged s.entries id ≡ false
            → covers ≡ (is_made_file (state_after s.entries) ino && is_listed id (covering s.entries ino))) }
    {
        if !self.knows_file(ino) {
            return Ok(false);
        }
        let seen = self.context(ino)?;
        Ok(seen.knows(id))
    }

    /// The client that owes a file's flush for a snapshot that isn't purged.
    pub fn owing(&self, ino: Ino, id: SnapId) -> Result<Option<u8>, NoMemory>
        requires state { IsState self.now }
        ensures { IfOk result (λ owes. (s : Server) (taken : Option Taken) → StandsFor self.now taken s
            → is_purged s.entries id ≡ false → owes ≡ capabilities.owing s ino id) }
    {
        match owed_by(self.writer(ino), id) {
            None => Ok(None),
            Some(client) => {
                if self.covers(ino, id)? {
                    Ok(Some(client))
                } else {
                    Ok(None)
                }
            }
        }
    }

    /// What a client's request comes to: the entry of a change that is made, under the request's number, or the answer. A
    /// snapshot that is made gets this id. It fails only with `NoMemory`.
    pub fn decide(
        &self,
        client: u8,
        number: u64,
        request: &Request,
        id: SnapId,
    ) -> Result<Decision, NoMemory>
        requires state { IsState self.now }

        // A change that is made is written down under the request's number.
        ensures written { IfOk result (λ decision. (s : Server) (taken : Option Taken) (change : Made)
            → StandsFor self.now taken s
            → change_asked (state_after s.entries) client id request.now ≡ Some (Ok change)
            → IsPut client number change decision) }

        // What is written down may follow the entries, where a snapshot that it makes can have the id.
        ensures legal { IfOk result (λ decision. (s : Server) (taken : Option Taken) → StandsFor self.now taken s
            → IsLegal s.entries id decision) }

        // A change that is refused is answered by its refusal.
        ensures refused { IfOk result (λ decision. (s : Server) (taken : Option Taken) (refusal : Reason)
            → StandsFor self.now taken s
            → change_asked (state_after s.entries) client id request.now ≡ Some (Err refusal)
            → decision ≡ Say (Refused refusal)) }

        // What asks for no change is answered: a query as it is after the entries, where sizes are known for good.
        ensures answered { IfOk result (λ decision. (s : Server) (taken : Option Taken) → StandsFor self.now taken s
            → change_asked (state_after s.entries) client id request.now ≡ None
            → IsAnswer s.entries (query_of request.now) decision) }
    {
        let decision = self.written.tree().decide(client, number, request, id)?;
        Ok(decision)
    }

    /// The answer to a query after the entries. A file's size in a snapshot is known for good where each flush of it came
    /// when all ids that it names were made.
    pub fn answer_to(&self, query: &Query) -> Result<Answer, NoMemory>
        requires state { IsState self.now }
        ensures answered { IfOk result (λ answer. (s : Server) (taken : Option Taken) → StandsFor self.now taken s
            → IsPast s.entries query.now → answer ≡ answer_to s.entries query.now) }
    {
        let answer = self.written.tree().answer(query)?;
        Ok(answer)
    }
}
