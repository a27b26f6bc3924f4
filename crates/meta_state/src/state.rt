// The state of a metadata server's tree.
ghost use Rattle.std.specs.Prelude.{◌≡◌, [], find, not, length, List, IfOk};
ghost use Rattle.snap_ids.specs.declared.id.TheConstants.{NOSNAP};
ghost use Rattle.plain_types.specs.declared.entry.Entry.{Entry};
ghost use Rattle.plain_journal.specs.Table.{barrier, dead};
ghost use Rattle.file_uses.specs.Uses.{is_among};
ghost use Rattle.journal_shapes.specs.Stands.{attr_after};
ghost use Rattle.meta_state.specs.Stands.{StandsFor};

use dentry_tree::DirTree;
use file_uses::FileUses;
use inode_versions::{Attr, InodeTable};
use plain_types::Inos;
use snap_ids::{Ino, Kind, NoMemory, ROOT, SnapId};
use snap_realm::RealmTree;
use std::alloc::Global;
use std::marker::Model;

/// The tree of a metadata server: names, inodes, realms and the uses of files, now and at the ids of live snapshots. A new
/// one stands for no entry of a journal, and `apply` adds one. What a journal says is told by definitions over its entries
/// alone; contracts see the tables, and say each answer for the entries that they stand for. After `NoMemory` of `apply` it
/// may only be dropped. Ceph developer guide, CephFS Snapshots.
#[derive(Drop)]
pub struct MetaState {
    pub(crate) names: DirTree,
    pub(crate) inodes: InodeTable,
    pub(crate) realms: RealmTree,
    pub(crate) uses: FileUses,
    // How many inodes were made, the root counted.
    pub(crate) made: u64,
    pub(crate) barrier: u64,
    pub(crate) entries: u64,
}

impl Model for MetaState {
    ghost use Rattle.meta_state.specs.Stands.{Tables};

    ghost Value = { Tables };

    ghost view = { λ meta. record {
      names = meta.names;
      inodes = meta.inodes;
      realms = meta.realms;
      uses = meta.uses;
      made = meta.made;
      barrier = meta.barrier;
      entries = meta.entries;
    } };
}

impl MetaState {
    /// The root alone. It stands for no entry.
    pub fn new(alloc: Global) -> Result<MetaState, NoMemory>
        ensures { IfOk result (λ meta. StandsFor meta []) }
    {
        let Ok(names) = DirTree::new(alloc) else {
            return Err(NoMemory);
        };
        let Ok(realms) = RealmTree::new(alloc) else {
            return Err(NoMemory);
        };
        let mut inodes = InodeTable::new(alloc);
        let root = Attr {
            kind: Kind::Dir,
            mode: 0o755,
            size: 0,
        };
        let Ok(()) = inodes.create(ROOT, SnapId(2), root) else {
            return Err(NoMemory);
        };
        Ok(MetaState {
            names,
            inodes,
            realms,
            uses: FileUses::new(alloc),
            made: 1,
            barrier: 0,
            entries: 0,
        })
    }

    /// The tree of realms. It takes no memory.
    pub fn realms(&self) -> &RealmTree
        ensures { result.now ≡ self.now.realms }
    {
        &self.realms
    }

    /// What an inode is now: None exactly where it is neither the root nor was made. What was made stays there for good. It
    /// takes no memory.
    pub fn head(&self, ino: Ino) -> Option<Attr>
        ensures { (entries : List Entry) → StandsFor self.now entries → result ≡ attr_after entries ino NOSNAP }
    {
        self.inodes.head(ino)
    }

    /// The least file without name and handle that the store hasn't dropped and that isn't among some, if there is one. It
    /// takes no memory.
    pub fn dead(&self, sent: &Inos) -> Option<Ino>
        ensures { (entries : List Entry) → StandsFor self.now entries
            → result ≡ find (λ ino. not (is_among sent.now ino)) (dead entries) }
    {
        self.uses.dead(sent)
    }

    /// The files without name and handle that the store hasn't dropped, rising. It takes no memory.
    pub fn dead_files(&self) -> &[Ino]
        ensures { (entries : List Entry) → StandsFor self.now entries → result.now ≡ dead entries }
    {
        self.uses.dead_files()
    }

    /// The number of the last barrier to which all clients came, at first 0. It takes no memory.
    pub fn barrier(&self) -> u64
        ensures { (entries : List Entry) → StandsFor self.now entries → result ≡ barrier entries }
    {
        self.barrier
    }

    /// How many entries were applied. It takes no memory.
    pub fn entries(&self) -> u64
        ensures { (entries : List Entry) → StandsFor self.now entries → result ≡ length entries }
    {
        self.entries
    }
}
