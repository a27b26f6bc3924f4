// What a client knows of realms.
ghost use Rattle.std.specs.Prelude.{◌≡◌, ◌==◌, ◌<◌, ◌++◌, ℕ, [], None, Some, if◌then◌else◌, IfOk, OnOk, OnErr};
ghost use Rattle.std.specs.List.{AllByRecursion, filter_map};
ghost use Rattle.std.specs.Option.{option_map, option_copied};
ghost use Rattle.snap_ids.specs.declared.id.Ino.{Ino as Inode};
ghost use Rattle.client_realms.specs.Contexts.{held_in, context_by, grown, newest, IsBorn};
ghost use Rattle.client_realms.specs.Fresh.{growth, fresh_of, after, some_of};

use plain_types::{FileTrace, Grown, SnapUpdate};
use snap_ids::{Ino, NoMemory, SnapContext, SnapId, context_of};
use std::alloc::Global;
use std::collections::BTreeMap;
use std::marker::Model;

/// The contexts of the files that a client holds for writing, as it last heard of them. Contracts see the list of them by
/// rising inode. Ceph developer guide, CephFS Snapshots: a client keeps the realms of what it holds.
#[derive(Drop)]
pub struct ClientRealms {
    alloc: Global,
    contexts: BTreeMap<u64, SnapContext>,
}

// New contexts of held files, and those that grow.
#[derive(Drop)]
struct News {
    fresh: Vec<(Ino, SnapContext)>,
    grown: Vec<(Ino, SnapId)>,
}

impl Model for ClientRealms {
    ghost use Rattle.std.specs.Prelude.{ℕ, List};
    ghost use Rattle.snap_ids.specs.Context.{Context};

    ghost Value = { List (ℕ × Context) };

    ghost view = { λ realms. realms.contexts.entries };
}

// Puts an item behind others, if there is one.
fn push_some(list: &mut Vec<(Ino, SnapId)>, item: Option<(Ino, SnapId)>) -> Result<(), NoMemory>
    ensures { OnOk result (list.new.items ≡ list.old.items ++ some_of item) }
{
    if let Some(item) = item {
        list.push(item)?;
    }
    Ok(())
}

impl ClientRealms {
    /// No file is held. It takes no memory.
    pub fn new(alloc: Global) -> ClientRealms
        ensures { result ≡ [] }
    {
        ClientRealms {
            alloc,
            contexts: BTreeMap::new(alloc),
        }
    }

    /// A file is held for writing, with the context of its trace. At want of memory all is as before.
    pub fn hold(&mut self, file: &FileTrace) -> Result<(), NoMemory>
        requires { IsBorn file.now }
        ensures held { OnOk result ((f : Inode) → held_in self.new f
            ≡ (if f.0 == file.now.ino.0 then Some (context_by file.now) else held_in self.old f)) }
        ensures as_before { OnErr result (self.new ≡ self.old) }
    {
        let context = context_of(self.alloc, &file.trace, file.birth)?;
        self.contexts.insert(file.ino.0, context)?;
        Ok(())
    }

    /// A file is held for writing no more.
    pub fn let_go(&mut self, ino: Ino)
        ensures { (f : Inode) → held_in self.new f ≡ (if f.0 == ino.0 then None else held_in self.old f) }
    {
        self.contexts.remove(&ino.0);
    }

    /// The context of a file, where it is held for writing.
    pub fn context(&self, ino: Ino) -> Option<&SnapContext>
        ensures { option_copied result ≡ held_in self.now ino }
    {
        self.contexts.get(&ino.0)
    }

    // Whether a file is held, and has grown: with the old sequence id.
    fn growth(&self, file: &FileTrace, context: &SnapContext) -> Option<(Ino, SnapId)>
        requires { context.now ≡ context_by file.now }
        ensures { result ≡ growth self.now file.now }
    {
        let old = self.contexts.get(&file.ino.0)?;
        if old.seq() < context.seq() {
            Some((file.ino, old.seq()))
        } else {
            None
        }
    }

    // Adds the new context of a file and its growth, where it is held.
    fn add(&self, file: &FileTrace, news: &mut News) -> Result<(), NoMemory>
        requires { IsBorn file.now }
        ensures fresh { OnOk result (news.new.fresh.items ≡ news.old.fresh.items ++ some_of (fresh_of self.now file.now)) }
        ensures grown { OnOk result (news.new.grown.items ≡ news.old.grown.items ++ some_of (growth self.now file.now)) }
    {
        if !self.contexts.contains_key(&file.ino.0) {
            return Ok(());
        }
        let context = context_of(self.alloc, &file.trace, file.birth)?;
        push_some(&mut news.grown, self.growth(file, &context))?;
        news.fresh.push((file.ino, context))?;
        Ok(())
    }

    // The new contexts of the held files among some, and those that grow.
    fn news(&self, files: &[FileTrace]) -> Result<News, NoMemory>
        requires { AllByRecursion IsBorn files.now }
        ensures fresh { IfOk result (λ news. news.fresh.items ≡ filter_map (fresh_of self.now) files.now) }
        ensures grown { IfOk result (λ news. news.grown.items ≡ filter_map (growth self.now) files.now) }
    {
        let mut news = News {
            fresh: Vec::new(self.alloc),
            grown: Vec::new(self.alloc),
        };
        let mut left = files;
        while let Some((file, rest)) = left.split_first() {
            self.add(file, &mut news)?;
            left = rest;
        }
        Ok(news)
    }

    // Puts a new context in the place of a held file's.
    fn put(&mut self, ino: Ino, context: SnapContext)
        ensures { (f : Inode) → held_in self.new f
            ≡ option_map (λ old. if ino.0 == f.0 then context else old) (held_in self.old f) }
    {
        if let Some(old) = self.contexts.get_mut(&ino.0) {
            *old = context;
        }
    }

    // Puts new contexts in place.
    fn put_all(&mut self, fresh: Vec<(Ino, SnapContext)>)
        ensures { (f : Inode) → held_in self.new f ≡ option_map (after f fresh.items) (held_in self.old f) }
    {
        for (ino, context) in fresh {
            self.put(ino, context);
        }
    }

    /// Takes what the server says of the realms of files, and answers the held ones whose sequence id grew, each with
    /// the old one. Files that aren't held stay unknown. At want of memory all is as before.
    pub fn update(&mut self, update: &SnapUpdate) -> Result<Grown, NoMemory>
        requires { AllByRecursion IsBorn update.now }
        ensures grown { IfOk result (λ list. list ≡ grown self.old update.now) }
        ensures contexts { OnOk result ((f : Inode) → held_in self.new f ≡ option_map (newest f update.now) (held_in self.old f)) }
        ensures as_before { OnErr result (self.new ≡ self.old) }
    {
        let News { fresh, grown } = self.news(update.as_slice())?;
        self.put_all(fresh);
        Ok(Grown::from_vec(grown))
    }
}
