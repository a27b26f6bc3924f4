// What a server has written down: the tree after all entries, the table of snapshots, and the entries that aren't durable.
ghost use Rattle.std.specs.Prelude.{◌≡◌, ◌+◌, ℕ, [], length, true, List, IfOk, OnOk};
ghost use Rattle.plain_types.specs.declared.entry.Entry.{Entry as Line};
ghost use Rattle.snap_ids.specs.declared.id.TheConstants.{NOSNAP};
ghost use Rattle.plain_journal.specs.Coverage.{context};
ghost use Rattle.plain_journal.specs.Entries.{applied, state_after};
ghost use Rattle.plain_journal.specs.Legal.{is_made_file};
ghost use Rattle.plain_journal.specs.Settled.{settled_size};
ghost use Rattle.plain_journal.specs.Table.{barrier, dead, effects_from};
ghost use Rattle.journal_table.specs.Calls.{called, CanCall};
ghost use Rattle.step_table.specs.Messages.{plain_trace, trace_fits, trace_with};
ghost use Rattle.mds_state.specs.Looks.{HasFile, is_file_in, size_in};
ghost use Rattle.mds_state.specs.Stands.{WrittenStands, MayEnter};
ghost use Rattle.mds_state.specs.Written.{Entered};

use crate::change::{effects_of, next_after, note_removed, operation_after};
use inode_versions::Attr;
use journal_table::{a_new_table_stands, calls_are_fine};
use meta_state::MetaState;
use plain_types::{Effects, Entry, FileTrace, Stamp, What};
use snap_ids::{Ino, Kind, NoMemory, SnapContext, SnapId};
use snap_table::SnapTable;
use std::alloc::Global;
use std::marker::Model;
use std::mem;

// What is written down.
#[derive(Drop)]
pub(crate) struct Written {
    tree: MetaState,
    table: SnapTable,
    // The next id of a snapshot.
    next: u64,
    // The operation on the table of snapshots that is outstanding, with the number of its entry.
    outstanding: Option<(SnapId, u64)>,
    durable: u64,
    buffered: Vec<Entry>,
    // The ids that buffered entries remove.
    removing: Vec<SnapId>,
}

impl Model for Written {
    ghost use Rattle.mds_state.specs.Parts.{WrittenParts};

    ghost Value = { WrittenParts };

    ghost view = { λ written. record {
      tree = written.tree;
      table = written.table;
      next = written.next;
      outstanding = written.outstanding;
      durable = written.durable;
      buffered = written.buffered.items;
      removing = written.removing.items;
    } };
}

// The call of an entry on the table of snapshots.
fn call_table(table: &mut SnapTable, what: &What) -> Result<(), NoMemory>
    requires { CanCall what.now table.old }
    ensures { OnOk result (table.new ≡ called what.now table.old) }
{
    match what {
        What::PrepareCreate { .. } => match table.prepare_create() {
            Ok(_) => Ok(()),
            Err(_) => Err(NoMemory),
        },
        What::PrepareDestroy { id } => match table.prepare_destroy(*id) {
            Ok(()) => Ok(()),
            Err(_) => Err(NoMemory),
        },
        What::Mksnap { .. } | What::Rmsnap { .. } => {
            table.commit();
            Ok(())
        }
        What::Rollback { .. } => {
            table.roll_back();
            Ok(())
        }
        What::Purgedone { id } => {
            table.purged(*id);
            Ok(())
        }
        _ => Ok(()),
    }
}

// An inode's size, 0 where there is no inode.
fn size_of(attr: Option<Attr>) -> u32
    ensures { result ≡ size_in attr }
{
    match attr {
        Some(attr) => attr.size,
        None => 0,
    }
}

// Whether an inode is there and is a file.
fn is_file(attr: Option<Attr>) -> bool
    ensures { result ≡ is_file_in attr }
{
    match attr {
        Some(attr) => match attr.kind {
            Kind::Dir => false,
            Kind::File => true,
        },
        None => false,
    }
}

impl Written {
    // Nothing is written down.
    pub(crate) fn new(alloc: Global) -> Result<Written, NoMemory>
        ensures { IfOk result (λ written. (clients : ℕ) → WrittenStands written clients [] 0) }
    {
        a_new_table_stands();
        let tree = MetaState::new(alloc)?;
        Ok(Written {
            tree,
            table: SnapTable::new(alloc),
            next: 2,
            outstanding: None,
            durable: 0,
            buffered: Vec::new(alloc),
            removing: Vec::new(alloc),
        })
    }

    // The tree after all entries.
    pub(crate) fn tree(&self) -> &MetaState
        ensures { result.now ≡ self.now.tree }
    {
        &self.tree
    }

    // How many entries there are.
    pub(crate) fn entries(&self) -> u64
        ensures { (clients : ℕ) (entries : List Line) (done : ℕ) → WrittenStands self.now clients entries done
            → result ≡ length entries }
    {
        self.tree.entries()
    }

    // The stamp of a message that is made now.
    pub(crate) fn stamp(&self) -> Stamp
        ensures { (clients : ℕ) (entries : List Line) (done : ℕ) → WrittenStands self.now clients entries done
            → result ≡ record { snap = record { 0 = applied entries }; entry = length entries } }
    {
        Stamp {
            snap: self.tree.realms().applied(),
            entry: self.tree.entries(),
        }
    }

    // The number of the last barrier.
    pub(crate) fn barrier(&self) -> u64
        ensures { (clients : ℕ) (entries : List Line) (done : ℕ) → WrittenStands self.now clients entries done
            → result ≡ barrier entries }
    {
        self.tree.barrier()
    }

    // The last id of a snapshot.
    pub(crate) fn applied(&self) -> SnapId
        ensures { (clients : ℕ) (entries : List Line) (done : ℕ) → WrittenStands self.now clients entries done
            → result ≡ record { 0 = applied entries } }
    {
        self.tree.realms().applied()
    }

    // Whether an inode is a file that was made.
    pub(crate) fn knows_file(&self, ino: Ino) -> bool
        ensures { (clients : ℕ) (entries : List Line) (done : ℕ) → WrittenStands self.now clients entries done
            → result ≡ is_made_file (state_after entries) ino }
    {
        is_file(self.tree.head(ino))
    }

    // A file's size as flushes settled it.
    pub(crate) fn size(&self, ino: Ino) -> u32
        ensures { (clients : ℕ) (entries : List Line) (done : ℕ) → WrittenStands self.now clients entries done
            → result ≡ settled_size entries ino NOSNAP }
    {
        size_of(self.tree.head(ino))
    }

    // A file with the realms that contain it.
    pub(crate) fn file_trace(&self, ino: Ino) -> Result<FileTrace, NoMemory>
        requires { HasFile self.now ino }
        ensures told { IfOk result (λ file. (clients : ℕ) (entries : List Line) (done : ℕ)
            → WrittenStands self.now clients entries done → is_made_file (state_after entries) ino ≡ true
            → plain_trace file ≡ trace_with ino (context entries ino)) }
        ensures fits { IfOk result (λ file. trace_fits file ≡ true) }
    {
        let realms = self.tree.realms();
        let birth = realms.birth_of(ino);
        match realms.trace(ino) {
            Ok(trace) => Ok(FileTrace { ino, birth, trace }),
            Err(_) => Err(NoMemory),
        }
    }

    // A file's context.
    pub(crate) fn context(&self, ino: Ino) -> Result<SnapContext, NoMemory>
        requires { HasFile self.now ino }
        ensures { IfOk result (λ seen. (clients : ℕ) (entries : List Line) (done : ℕ)
            → WrittenStands self.now clients entries done → is_made_file (state_after entries) ino ≡ true
            → seen ≡ context entries ino) }
    {
        match self.tree.realms().context(ino) {
            Ok(context) => Ok(context),
            Err(_) => Err(NoMemory),
        }
    }

    // How many entries are durable.
    pub(crate) fn durable(&self) -> u64
        ensures { result ≡ self.now.durable }
    {
        self.durable
    }

    // The next id of a snapshot.
    pub(crate) fn next(&self) -> u64
        ensures { result ≡ self.now.next }
    {
        self.next
    }

    // The operation that is outstanding.
    pub(crate) fn outstanding(&self) -> Option<(SnapId, u64)>
        ensures { result ≡ self.now.outstanding }
    {
        self.outstanding
    }

    // The entries that aren't durable.
    pub(crate) fn buffered(&self) -> &[Entry]
        ensures { result.now ≡ self.now.buffered }
    {
        &self.buffered
    }

    // The table of snapshots.
    pub(crate) fn table(&self) -> &SnapTable
        ensures { result.now ≡ self.now.table }
    {
        &self.table
    }

    // The ids that buffered entries remove.
    pub(crate) fn removing(&self) -> &[SnapId]
        ensures { result.now ≡ self.now.removing }
    {
        &self.removing
    }

    // The files without name and handle that the store hasn't dropped.
    pub(crate) fn dead_files(&self) -> &[Ino]
        ensures { (clients : ℕ) (entries : List Line) (done : ℕ) → WrittenStands self.now clients entries done
            → result.now ≡ dead entries }
    {
        self.tree.dead_files()
    }

    // The sequence id of a file's context.
    pub(crate) fn seq(&self, ino: Ino) -> SnapId
        requires { HasFile self.now ino }
        ensures { (clients : ℕ) (entries : List Line) (done : ℕ) → WrittenStands self.now clients entries done
            → is_made_file (state_after entries) ino ≡ true → result ≡ (context entries ino).seq }
    {
        self.tree.realms().seq_of(ino)
    }

    // One more entry.
    pub(crate) fn enter(&mut self, entry: Entry) -> Result<(), NoMemory>
        requires { MayEnter self.old entry }
        ensures { OnOk result (Entered entry self.old self.new) }
    {
        calls_are_fine();
        self.tree.apply(&entry)?;
        let number = self.tree.entries();
        call_table(&mut self.table, &entry.what)?;
        self.next = next_after(self.next, &entry.what)?;
        self.outstanding = operation_after(self.outstanding, number, &entry.what);
        note_removed(&mut self.removing, &entry.what)?;
        self.buffered.push(entry)?;
        Ok(())
    }

    // All entries are durable. Gives the effects of those that weren't.
    pub(crate) fn commit(&mut self) -> Result<Effects, NoMemory>
        ensures effects { IfOk result (λ effects. effects ≡ effects_from (self.old.durable + 1) self.old.buffered) }
        ensures stands { OnOk result ((clients : ℕ) (entries : List Line) (done : ℕ)
            → WrittenStands self.old clients entries done → WrittenStands self.new clients entries (length entries)) }
    {
        let alloc = *self.buffered.allocator();
        let buffered = mem::replace(&mut self.buffered, Vec::new(alloc));
        let effects = effects_of(alloc, self.durable, buffered)?;
        self.durable = self.tree.entries();
        self.removing = Vec::new(alloc);
        Ok(effects)
    }
}
