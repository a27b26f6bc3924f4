// What inodes were put as.
ghost use Rattle.std.specs.Prelude.{◌≡◌, [], if◌then◌else◌, OnOk, OnErr};
ghost use Rattle.snap_ids.specs.declared.id.Ino.{Ino as Inode};
ghost use Rattle.snap_ids.specs.declared.values.Kind.TheVariants.{Dir};
ghost use Rattle.plain_tree.specs.State.{same_ino};
ghost use Rattle.dentry_tree.specs.Dentries.{kind_in};

use crate::error::TreeError;
use snap_ids::{Ino, Kind};
use std::alloc::Global;
use std::collections::BTreeMap;
use std::marker::Model;

// What each inode was put as last. Contracts see the list of inodes with their kinds.
#[derive(Debug, Drop)]
pub(crate) struct Kinds {
    kinds: BTreeMap<u64, Kind>,
}

impl Model for Kinds {
    ghost use Rattle.std.specs.Prelude.{ℕ, List};
    ghost use Rattle.snap_ids.specs.declared.values.Kind.{Kind};

    ghost Value = { List (ℕ × Kind) };

    ghost view = { λ kinds. kinds.kinds.entries };
}

impl Kinds {
    // No inode was put.
    pub fn new(alloc: Global) -> Kinds
        ensures { result ≡ [] }
    {
        Kinds {
            kinds: BTreeMap::new(alloc),
        }
    }

    // What an inode is: a directory where it wasn't put.
    #[tactic(auto, unfolding(crate::specs::Dentries::kind_in))]
    pub fn of(&self, ino: Ino) -> Kind
        ensures { result ≡ kind_in self.now ino }
    {
        match self.kinds.get(&ino.0) {
            Some(kind) => *kind,
            None => Kind::Dir,
        }
    }

    // An inode is put.
    #[tactic(auto, unfolding(crate::specs::Dentries::kind_in))]
    pub fn put(&mut self, ino: Ino, kind: Kind) -> Result<(), TreeError>
        ensures put { OnOk result ((i : Inode) → kind_in self.new i
            ≡ (if same_ino i ino then kind else kind_in self.old i)) }
        ensures no_memory { OnErr result (result ≡ Err TreeError.NoMemory) }
        ensures err { OnErr result (self.new ≡ self.old) }
    {
        self.kinds.insert(ino.0, kind)?;
        Ok(())
    }
}
