// What a request comes to.
ghost use Rattle.std.specs.Prelude.{◌≡◌, true, false, is_some, List, Option, None, Some, Result, Ok, Err, IfOk, OnErr};
ghost use Rattle.plain_types.specs.declared.answer.Answer.TheVariants.{Refused};
ghost use Rattle.plain_types.specs.declared.answer.Refusal.{Refusal as Reason};
ghost use Rattle.plain_types.specs.declared.change.Change.{Change as Made};
ghost use Rattle.plain_types.specs.declared.entry.Entry.{Entry as Written};
ghost use Rattle.plain_tree.specs.State.{next_ino};
ghost use Rattle.plain_tree.specs.Request.{change_asked};
ghost use Rattle.plain_journal.specs.Entries.{state_after};
ghost use Rattle.meta_state.specs.Decisions.{IsPut, IsLegal, IsAnswer, query_of, takes_memory, is_of_bytes, Says, Follows};
ghost use Rattle.meta_state.specs.declared.decide.Decision.TheVariants.{Say};
ghost use Rattle.meta_state.specs.Stands.{StandsFor, IsState};

use crate::state::MetaState;
use change_plan::plan_change;
use plain_types::{Answer, Change, Entry, Query, Refusal, Request, What};
use snap_ids::{FIRST_INO, Ino, NoMemory, SnapId};

/// What a request comes to: an entry to be written down, or an answer.
#[derive(Debug, PartialEq, Eq, Drop)]
pub enum Decision {
    Put(Entry),
    Say(Answer),
}

// What a journal says of a change; a change of bytes has no entry.
fn written_down(change: Change) -> Option<What>
    ensures { Says result change }
{
    let what = match change {
        Change::Mkdir { dir, name, ino } => What::Mkdir { dir, name, ino },
        Change::Create {
            dir,
            name,
            ino,
            mode,
        } => What::Create {
            dir,
            name,
            ino,
            mode,
        },
        Change::Link { ino, dir, name } => What::Link { ino, dir, name },
        Change::Unlink { dir, name } => What::Unlink { dir, name },
        Change::Rmdir { dir, name } => What::Rmdir { dir, name },
        Change::Rename {
            dir,
            name,
            to_dir,
            to_name,
        } => What::Rename {
            dir,
            name,
            to_dir,
            to_name,
        },
        Change::Chmod { ino, mode } => What::Chmod { ino, mode },
        Change::OpenFile {
            handle,
            ino,
            writable,
        } => What::OpenFile {
            handle,
            ino,
            writable,
        },
        Change::CloseFile { handle } => What::CloseFile { handle },
        Change::Mksnap { id, dir, name } => What::Mksnap { id, dir, name },
        Change::Rmsnap { id } => What::Rmsnap { id },
        Change::WriteFile { .. } | Change::Truncate { .. } => return None,
    };
    Some(what)
}

// The decision to write down a change under a request's number.
fn put(client: u8, number: u64, change: Change) -> Decision
    ensures { is_of_bytes change ≡ false → IsPut client number change result }
{
    match written_down(change) {
        Some(what) => Decision::Put(Entry {
            client,
            number,
            what,
        }),
        None => Decision::Say(Answer::Done),
    }
}

// The query that a request is, if it is one.
fn query_in(request: &Request) -> Result<Option<Query>, NoMemory>
    ensures query { IfOk result (λ query. query ≡ query_of request.now) }
    ensures no_memory { OnErr result (is_some (query_of request.now) ≡ true) }
{
    let query = match request {
        Request::Cat { path } => Query::Cat {
            path: path.clone()?,
        },
        Request::Stat { path } => Query::Stat {
            path: path.clone()?,
        },
        Request::List { path } => Query::List {
            path: path.clone()?,
        },
        Request::Realm { path } => Query::Realm {
            path: path.clone()?,
        },
        Request::Clones { path, index } => Query::Clones {
            path: path.clone()?,
            index: *index,
        },
        _ => return Ok(None),
    };
    Ok(Some(query))
}

impl MetaState {
    // The number of the next inode.
    fn next(&self) -> Ino
        requires { IsState self.now }
        ensures { (entries : List Written) → StandsFor self.now entries → result ≡ next_ino (state_after entries) }
    {
        Ino(FIRST_INO.0 + (self.made - 1))
    }

    /// What a client's request comes to after the entries: the entry of a change that is made, under the request's number, or
    /// the answer where it is refused or asks for no change. A snapshot that is made gets this id. `Cap` and `Barrier` need
    /// no tree, and are said to be done. It fails only with `NoMemory`, which is wanted for the names of a change and for
    /// the answer to a query.
    pub fn decide(
        &self,
        client: u8,
        number: u64,
        request: &Request,
        id: SnapId,
    ) -> Result<Decision, NoMemory>
        requires state { IsState self.now }

        // A change that is made is written down under the request's number.
        ensures written { IfOk result (λ decision. (entries : List Written) (change : Made) → StandsFor self.now entries
            → change_asked (state_after entries) client id request.now ≡ Some (Ok change)
            → IsPut client number change decision) }

        // What is written down may follow the entries, where a snapshot that it makes can have the id.
        ensures legal { IfOk result (λ decision. (entries : List Written) → StandsFor self.now entries
            → IsLegal entries id decision) }

        // A change that is refused is answered by its refusal.
        ensures refused { IfOk result (λ decision. (entries : List Written) (refusal : Reason) → StandsFor self.now entries
            → change_asked (state_after entries) client id request.now ≡ Some (Err refusal)
            → decision ≡ Say (Refused refusal)) }

        // What asks for no change is answered: a query as it is after the entries, where sizes are known for good.
        ensures answered { IfOk result (λ decision. (entries : List Written) → StandsFor self.now entries
            → change_asked (state_after entries) client id request.now ≡ None
            → IsAnswer entries (query_of request.now) decision) }

        // Memory is wanted for the names of a change and for the answer to a query alone.
        ensures no_memory { OnErr result ((entries : List Written) → StandsFor self.now entries
            → takes_memory (change_asked (state_after entries) client id request.now) request.now ≡ true) }
    {
        let next = self.next();
        let planned = plan_change(
            &self.names,
            &self.realms,
            &self.uses,
            next,
            client,
            id,
            request,
        )?;
        self.decided(client, number, request, planned)
    }

    // The decision on what a request comes to.
    fn decided(
        &self,
        client: u8,
        number: u64,
        request: &Request,
        planned: Option<Result<Change, Refusal>>,
    ) -> Result<Decision, NoMemory>
        requires { IsState self.now }
        ensures { (entries : List Written) → StandsFor self.now entries
            → Follows entries client number request.now result planned }
    {
        match planned {
            Some(Ok(change)) => Ok(put(client, number, change)),
            Some(Err(refusal)) => Ok(Decision::Say(Answer::Refused(refusal))),
            None => self.said(request),
        }
    }

    // The answer to a request that asks for no change.
    fn said(&self, request: &Request) -> Result<Decision, NoMemory>
        requires { IsState self.now }
        ensures { (entries : List Written) → StandsFor self.now entries
            → Follows entries 0 0 request.now result None }
    {
        match query_in(request)? {
            Some(query) => Ok(Decision::Say(self.answer(&query)?)),
            None => Ok(Decision::Say(Answer::Done)),
        }
    }
}
