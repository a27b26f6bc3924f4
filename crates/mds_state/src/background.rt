// What the background turn and the reports of the store ask of the state. None of it takes memory.
ghost use Rattle.std.specs.Prelude.{◌≡◌, ◌&&◌, Option, filter, find, drop, is_none, true};
ghost use Rattle.std.specs.List.{list_all, list_any};
ghost use Rattle.snap_ids.specs.Context.{is_listed};
ghost use Rattle.snap_ids.specs.declared.id.Ino.{Ino as Inode};
ghost use Rattle.plain_tree.specs.State.{same_ino};
ghost use Rattle.plain_journal.specs.Coverage.{context};
ghost use Rattle.plain_journal.specs.Entries.{state_after};
ghost use Rattle.plain_journal.specs.Legal.{is_made_file};
ghost use Rattle.plain_journal.specs.Table as journal;
ghost use Rattle.held_files.specs.Files.{is_empty};
ghost use Rattle.server_holders.specs.Answers.{is_settled_at};
ghost use Rattle.step_table.specs.Background as background;
ghost use Rattle.step_table.specs.Background.{first_file, least, unsent_purges};
ghost use Rattle.step_table.specs.Capabilities as capabilities;
ghost use Rattle.step_table.specs.ServerState.{Asked as Taken, Server};
ghost use Rattle.mds_state.specs.Due.{is_due, is_unasked, is_unsent};
ghost use Rattle.mds_state.specs.Looks.{HasFile};
ghost use Rattle.mds_state.specs.Stands.{IsState, StandsFor};

use crate::state::MdsState;
use crate::tenures::Tenures;
use journal_table::the_least_that_passes_is_the_first;
use plain_types::{Claim, Entry};
use server_holders::{holders_are_the_tables, modes_are_the_tables, owed_flushes_are_the_tables};
use snap_ids::{Ino, Mode, SnapId};

// Whether a list has an id.
fn has_id(ids: &[SnapId], id: SnapId) -> bool
    ensures { result ≡ is_listed id ids.now }
{
    ids.iter().any(|other| other.0 == id.0)
}

// Whether a list has a file.
fn has_file(files: &[Ino], ino: Ino) -> bool
    ensures { result ≡ list_any (same_ino ino) files.now }
{
    files.iter().any(|other| ino.0 == other.0)
}

// Whether no buffered entry removes an id, and its purge wasn't sent.
fn is_unsent(removing: &[SnapId], purging: &[SnapId], id: SnapId) -> bool
    ensures { result ≡ is_unsent removing.now purging.now id }
{
    !has_id(removing, id) && !has_id(purging, id)
}

// The first of some ids that is so.
fn first_unsent(ids: &[SnapId], removing: &[SnapId], purging: &[SnapId]) -> Option<SnapId>
    ensures { result ≡ find (is_unsent removing.now purging.now) ids.now }
{
    ids.iter()
        .copied()
        .find(|id| is_unsent(removing, purging, *id))
}

// Whether one of a file's holders wasn't asked to give it back.
fn any_unasked(tenures: &Tenures, holders: &[(u8, Claim)], ino: Ino) -> bool
    ensures { result ≡ list_any (is_unasked tenures.now ino) holders.now }
{
    holders
        .iter()
        .any(|holder| !tenures.is_recalled(holder.0, ino))
}

// Whether a dead file has a holder that wasn't asked to give it back, or no holder and its deletion wasn't sent.
fn is_due(tenures: &Tenures, deleting: &[Ino], ino: Ino) -> bool
    ensures { result ≡ is_due tenures.now deleting.now ino }
{
    let holders = tenures.holders(ino);
    if holders.is_empty() {
        !has_file(deleting, ino)
    } else {
        any_unasked(tenures, holders, ino)
    }
}

// The first of some dead files that is so.
fn first_due(dead: &[Ino], tenures: &Tenures, deleting: &[Ino]) -> Option<Ino>
    ensures { result ≡ find (is_due tenures.now deleting.now) dead.now }
{
    dead.iter()
        .copied()
        .find(|ino| is_due(tenures, deleting, *ino))
}

impl MdsState {
    /// The least id whose snapshot was removed by a durable entry, that the store hasn't dropped, and whose purge wasn't sent
    /// to it since the restart.
    pub fn least_purge(&self) -> Option<SnapId>
        ensures { (s : Server) (taken : Option Taken) → StandsFor self.now taken s → result ≡ least (unsent_purges s) }
    {
        the_least_that_passes_is_the_first();
        let unpurged = self.written.table().unpurged();
        first_unsent(unpurged, self.written.removing(), &self.purging)
    }

    /// The least file without name and handle that the store hasn't dropped and for which there is something to do: it has a
    /// holder that wasn't asked to give it back, or no holder and its deletion wasn't sent since the restart.
    pub fn due_file(&self) -> Option<Ino>
        ensures { (s : Server) (taken : Option Taken) → StandsFor self.now taken s
            → result ≡ first_file (filter (background.is_due s) (journal.dead s.entries)) }
    {
        holders_are_the_tables();
        modes_are_the_tables();
        let dead = self.written.dead_files();
        first_due(dead, &self.tenures, self.deleting.as_slice())
    }

    /// Whether a snapshot was removed, and the store hasn't dropped it.
    pub fn is_to_purge(&self, id: SnapId) -> bool
        ensures { (s : Server) (taken : Option Taken) → StandsFor self.now taken s
            → result ≡ is_listed id (journal.to_purge s.entries) }
    {
        has_id(self.written.table().unpurged(), id)
    }

    /// Whether a file has neither name nor handle, and the store hasn't dropped it.
    pub fn is_dead(&self, ino: Ino) -> bool
        ensures { (s : Server) (taken : Option Taken) → StandsFor self.now taken s
            → result ≡ list_any (same_ino ino) (journal.dead s.entries) }
    {
        has_file(self.written.dead_files(), ino)
    }

    /// The entries that aren't durable.
    pub fn buffered_entries(&self) -> &[Entry]
        ensures { (s : Server) (taken : Option Taken) → StandsFor self.now taken s
            → result.now ≡ drop s.durable s.entries }
    {
        self.written.buffered()
    }

    // Whether the store has dropped each removed snapshot.
    fn none_to_purge(&self) -> bool
        ensures { (s : Server) (taken : Option Taken) → StandsFor self.now taken s
            → result ≡ is_empty (journal.to_purge s.entries) }
    {
        self.written.table().unpurged().is_empty()
    }

    // Whether it has dropped each dead file.
    fn none_dead(&self) -> bool
        ensures { (s : Server) (taken : Option Taken) → StandsFor self.now taken s
            → result ≡ is_empty (journal.dead s.entries) }
    {
        self.written.dead_files().is_empty()
    }

    // Whether no operation on the table of snapshots is outstanding or deferred.
    fn no_operation(&self) -> bool
        ensures { (s : Server) (taken : Option Taken) → StandsFor self.now taken s
            → result ≡ (is_none (journal.outstanding s.entries) && is_empty s.deferred) }
    {
        self.outstanding().is_none() && self.none_deferred()
    }

    // Whether neither such an operation nor something to be dropped is left.
    fn none_left(&self) -> bool
        ensures { (s : Server) (taken : Option Taken) → StandsFor self.now taken s
            → result ≡ (is_none (journal.outstanding s.entries) && is_empty s.deferred
            && is_empty (journal.to_purge s.entries) && is_empty (journal.dead s.entries)) }
    {
        self.no_operation() && self.none_to_purge() && self.none_dead()
    }

    // Whether a holding owes no flush of its file.
    fn is_settled(&self, held: &(u8, Claim)) -> bool
        requires { HasFile self.now.written held.now.1.ino }
        ensures { (s : Server) (taken : Option Taken) → StandsFor self.now taken s
            → is_made_file (state_after s.entries) held.now.1.ino ≡ true
            → result ≡ is_settled_at (λ (ino : Inode). (context s.entries ino).seq) held.now }
    {
        match held.1.mode {
            Mode::Read => true,
            Mode::Write => self.written.seq(held.1.ino).0 <= held.1.settled.0,
        }
    }

    // Whether no holding does.
    fn all_settled(&self) -> bool
        requires { IsState self.now }
        ensures { (s : Server) (taken : Option Taken) → StandsFor self.now taken s
            → result ≡ list_all (capabilities.is_settled s) s.holders }
    {
        owed_flushes_are_the_tables();
        let mut left = self.tenures.held();
        while let Some((held, rest)) = left.split_first() {
            if !self.is_settled(held) {
                return false;
            }
            left = rest;
        }
        true
    }

    /// Whether nothing is unfinished: no operation on the table of snapshots is outstanding or deferred, the store has dropped
    /// each removed snapshot and each dead file, and no holder owes a flush of its file.
    pub fn is_finished(&self) -> bool
        requires { IsState self.now }
        ensures { (s : Server) (taken : Option Taken) → StandsFor self.now taken s → result ≡ background.is_finished s }
    {
        self.none_left() && self.all_settled()
    }
}
