// The table of inodes.
ghost use Rattle.std.specs.Prelude.{◌≡◌, ◌↔◌, ◌<◌, ◌≤◌, ◌==◌, ◌&&◌, nat_le, nat_lt, true, [], None, Some, if◌then◌else◌, IsSome, OnOk, OnErr};
ghost use Rattle.std.specs.Option.{option_map};
ghost use Rattle.snap_ids.specs.Context.{is_listed};
ghost use Rattle.snap_ids.specs.declared.id.Ino.{Ino as Inode};
ghost use Rattle.snap_ids.specs.declared.id.SnapId.{SnapId};
ghost use Rattle.inode_versions.specs.Histories.{since_changed, settled_at};
ghost use Rattle.inode_versions.specs.Table.{attr_at, head_of, since, is_heads, first_settled, trimmed_table, count_unneeded, is_kept};

use crate::attr::Attr;
use crate::error::InodeError;
use crate::history::History;
use snap_ids::{Ids, Ino, NOSNAP, SnapId};
use std::alloc::Global;
use std::collections::BTreeMap;
use std::marker::Model;

/// The attributes of inodes, now and as they were when earlier ids were applied. Each inode has a head, which is what it is
/// now, and earlier versions, each valid from a first to a last id. Contracts speak of what an inode is at an id (`attr_at`),
/// of its head (`head_of`) and of the first id of the head (`since`). Ceph developer guide, CephFS Snapshots.
#[derive(Debug, Drop)]
pub struct InodeTable {
    alloc: Global,
    inodes: BTreeMap<u64, History>,
    // How many earlier versions the inodes have together.
    earlier: usize,
}

impl Model for InodeTable {
    ghost use Rattle.std.specs.Prelude.{ℕ, List};
    ghost use Rattle.inode_versions.specs.Histories.{History};

    ghost Value = { List (ℕ × History) };

    ghost use Rattle.inode_versions.specs.Fields.{IsTable};

    ghost view = { λ table. table.inodes.entries };

    ghost invariant = { IsTable };
}

impl InodeTable {
    /// A table without inodes. It takes no memory.
    #[tactic(auto, unfolding(crate::specs::Table::attr_at, crate::specs::Table::since))]
    pub fn new(alloc: Global) -> InodeTable
        ensures empty { result ≡ [] }
        ensures at { (i : Inode) → (s : SnapId) → attr_at result i s ≡ None }
        ensures since { (i : Inode) → since result i ≡ None }
    {
        InodeTable {
            alloc,
            inodes: BTreeMap::new(alloc),
            earlier: 0,
        }
    }

    /// What an inode is now: None exactly where it isn't there.
    #[tactic(auto, unfolding(crate::specs::Table::attr_at, crate::specs::Table::since))]
    pub fn head(&self, ino: Ino) -> Option<Attr>
        ensures head { result ≡ head_of self.now ino }
        ensures there { IsSome result ↔ IsSome (since self.now ino) }
    {
        match self.inodes.get(&ino.0) {
            Some(history) => Some(history.head()),
            None => None,
        }
    }

    /// What an inode is at an id: None exactly where no kept version is valid there. At the ids of its head that is its head.
    #[tactic(auto, unfolding(crate::specs::Table::attr_at, crate::specs::Table::since))]
    pub fn at(&self, ino: Ino, s: SnapId) -> Option<Attr>
        ensures at { result ≡ attr_at self.now ino s }
        ensures heads { s.0 ≤ NOSNAP.0 → is_heads self.now ino s ≡ true → result ≡ head_of self.now ino }
    {
        match self.inodes.get(&ino.0) {
            Some(history) => history.at(s),
            None => None,
        }
    }

    /// An inode comes into being at an id: from `birth` to NOSNAP it is `attr`, before it isn't there. At want of memory the
    /// table is as before.
    pub fn create(&mut self, ino: Ino, birth: SnapId, attr: Attr) -> Result<(), InodeError>
        requires below_nosnap { birth.0 < NOSNAP.0 }
        requires absent { head_of self.old ino ≡ None }
        ensures at { OnOk result ((i : Inode) → (s : SnapId) → s.0 ≤ NOSNAP.0 → attr_at self.new i s
            ≡ (if i.0 == ino.0 then (if nat_le birth.0 s.0 then Some attr else None) else attr_at self.old i s)) }
        ensures since { OnOk result ((i : Inode) → since self.new i
            ≡ (if i.0 == ino.0 then Some birth else since self.old i)) }
        ensures as_before { OnErr result (self.new ≡ self.old) }
    {
        let history = History::new(self.alloc, birth, attr);
        self.inodes.insert(ino.0, history)?;
        Ok(())
    }

    /// What an inode is changes above an id: answers at ids up to `follows` stay, and above it they become `attr` where they
    /// were the head's. It takes memory only where `follows` was the head's, so that the head's version has to be split. At
    /// want of memory the table is as before.
    pub fn change(&mut self, ino: Ino, follows: SnapId, attr: Attr) -> Result<(), InodeError>
        requires below_nosnap { follows.0 < NOSNAP.0 }
        requires there { IsSome (head_of self.old ino) }
        ensures at { OnOk result ((i : Inode) → (s : SnapId) → s.0 ≤ NOSNAP.0 → attr_at self.new i s
            ≡ (if (i.0 == ino.0) && (nat_lt follows.0 s.0 && is_heads self.old i s) then Some attr
            else attr_at self.old i s)) }
        ensures since { OnOk result ((i : Inode) → since self.new i
            ≡ (if i.0 == ino.0 then option_map (since_changed follows) (since self.old i)
            else since self.old i)) }
        ensures split { OnErr result (is_heads self.old ino follows ≡ true) }
        ensures as_before { OnErr result (self.new ≡ self.old) }
    {
        let Some(history) = self.inodes.get_mut(&ino.0) else {
            return Ok(());
        };
        let before = history.earlier();
        history.change(follows, attr, usize::MAX - self.earlier)?;
        self.earlier = self.earlier - before + history.earlier();
        Ok(())
    }

    /// A size is settled: at the ids above `follows` and up to `upto` the size alone becomes `size`, and nothing else changes.
    /// `upto` = NOSNAP takes in the head. The first id of the head moves where the head gets another size at some of its ids:
    /// above `upto`, or where that is NOSNAP above `follows`. It takes no memory where no id gets the size. At want of memory
    /// the table is as before.
    pub fn settle(
        &mut self,
        ino: Ino,
        follows: SnapId,
        upto: SnapId,
        size: u32,
    ) -> Result<(), InodeError>
        requires below_nosnap { follows.0 < NOSNAP.0 }
        requires there { IsSome (head_of self.old ino) }
        ensures at { OnOk result ((i : Inode) → (s : SnapId) → s.0 ≤ NOSNAP.0 → attr_at self.new i s
            ≡ (if i.0 == ino.0 then option_map (settled_at follows upto size s) (attr_at self.old i s)
            else attr_at self.old i s)) }
        ensures since { OnOk result ((i : Inode) → since self.new i
            ≡ (if i.0 == ino.0 then first_settled follows upto size (head_of self.old i) (since self.old i)
            else since self.old i)) }
        ensures some { OnErr result (follows.0 < upto.0) }
        ensures as_before { OnErr result (self.new ≡ self.old) }
    {
        if upto <= follows {
            return Ok(());
        }
        let Some(history) = self.inodes.get_mut(&ino.0) else {
            return Ok(());
        };
        let before = history.earlier();
        history.settle(self.alloc, follows, upto, size, usize::MAX - self.earlier)?;
        self.earlier = self.earlier - before + history.earlier();
        Ok(())
    }

    // How many earlier versions no id of a list needs.
    fn unneeded(&self, live: &Ids) -> usize
        ensures { result ≡ count_unneeded live.now self.now }
    {
        if self.earlier == 0 {
            return 0;
        }
        let mut count = 0;
        for history in self.inodes.values() {
            count += history.unneeded(live);
        }
        count
    }

    /// Drops the earlier versions that are valid at no id of a list, and answers how many. What an inode is now stays, and so
    /// does what it is at each id of the list; where a dropped version was valid the answer is None. It takes no memory.
    pub fn trim(&mut self, live: &Ids) -> usize
        ensures count { result ≡ count_unneeded live.now self.old }
        ensures table { self.new ≡ trimmed_table live.now self.old }
        ensures live { (i : Inode) → (s : SnapId) → is_listed s live.now ≡ true
            → attr_at self.new i s ≡ attr_at self.old i s }
        ensures head { (i : Inode) → head_of self.new i ≡ head_of self.old i }
        ensures since { (i : Inode) → since self.new i ≡ since self.old i }
        ensures at { (i : Inode) → (s : SnapId) → attr_at self.new i s
            ≡ (if is_kept live.now self.old i s then attr_at self.old i s else None) }
    {
        let dropped = self.unneeded(live);
        if dropped == 0 {
            return 0;
        }
        self.inodes.retain(|_, history| {
            history.trim(live);
            true
        });
        self.earlier -= dropped;
        dropped
    }
}
