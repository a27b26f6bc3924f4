// Which files are in use.
ghost use Rattle.std.specs.Prelude.{◌≡◌, ◌<◌, None, false, true, is_some, option_map, IsSome, OnOk, OnErr};
ghost use Rattle.plain_tree.specs.State.{Handle};
ghost use Rattle.plain_tree.specs.Change.{open_of};
ghost use Rattle.file_uses.specs.Handles.{opened_of};
ghost use Rattle.file_uses.specs.Uses as files;

use crate::dead::{first_unsent, is_dead, note, take_out};
use crate::files::{FileUse, set, use_of};
use crate::handles::{Handles, Opened};
use plain_types::Inos;
use snap_ids::{Ino, NoMemory};
use std::alloc::Global;
use std::collections::BTreeMap;
use std::marker::Model;

// A file has at most so many names.
const MOST_NAMES: u64 = 4611686018427387904;

/// Which files are in use. A file is dead when it has neither name nor handle, until the store has dropped it. Contracts
/// see the record of the files, by rising inode and each with its number of names and whether it was dropped, and of the
/// open handles, in the order in which they were opened.
#[derive(Debug, Drop)]
pub struct FileUses {
    files: BTreeMap<u64, FileUse>,
    handles: Handles,
    // The dead files, rising. There is room for all files, so that to note one takes no memory.
    dead: Vec<Ino>,
}

impl Model for FileUses {
    ghost use Rattle.file_uses.specs.Uses.{Uses};

    ghost Value = { Uses };

    ghost use Rattle.file_uses.specs.Fields.{uses_of, IsIndexed};

    ghost view = { uses_of };

    ghost invariant = { IsIndexed };
}

impl FileUses {
    /// No file is there. It takes no memory.
    pub fn new(alloc: Global) -> FileUses
        ensures { result ≡ files.no_file }
    {
        FileUses {
            files: BTreeMap::new(alloc),
            handles: Handles::new(alloc),
            dead: Vec::new(alloc),
        }
    }

    /// A new file is made, with one name. At want of memory all is as before.
    pub fn made(&mut self, ino: Ino) -> Result<(), NoMemory>
        requires absent { files.use_of self.old ino ≡ None }
        ensures made { OnOk result (self.new ≡ files.made ino self.old) }
        ensures as_before { OnErr result (self.new ≡ self.old) }
    {
        self.dead.reserve(self.files.len() + 1)?;
        self.files.insert(
            ino.0,
            FileUse {
                names: 1,
                dropped: false,
            },
        )?;
        Ok(())
    }

    /// A file gets one more name. More than 2^62 names are refused as for want of memory. Then all is as before.
    pub fn linked(&mut self, ino: Ino) -> Result<(), NoMemory>
        requires there { IsSome (files.use_of self.old ino) }
        ensures linked { OnOk result (self.new ≡ files.linked ino self.old) }
        ensures as_before { OnErr result (self.new ≡ self.old) }
    {
        let Some(file) = use_of(&self.files, ino) else {
            return Ok(());
        };
        if file.names >= MOST_NAMES {
            return Err(NoMemory);
        }
        let names = file.names + 1;
        set(&mut self.files, ino, FileUse { names, ..file });
        take_out(&mut self.dead, ino);
        Ok(())
    }

    /// A file loses a name. Without name and handle it is dead. It takes no memory.
    pub fn unlinked(&mut self, ino: Ino)
        requires named { 0 < files.names_of self.old ino }
        ensures unlinked { self.new ≡ files.unlinked ino self.old }
    {
        let Some(file) = use_of(&self.files, ino) else {
            return;
        };
        let file = FileUse {
            names: file.names - 1,
            ..file
        };
        set(&mut self.files, ino, file);
        let is_dead = is_dead(&self.handles, ino, file);
        note(&mut self.dead, ino, is_dead);
    }

    /// A client opens a file under a handle of its own. At want of memory all is as before.
    pub fn open(&mut self, client: u8, handle: u8, ino: Ino, writable: bool) -> Result<(), NoMemory>
        requires free { open_of self.old.handles client handle ≡ None }
        requires there { IsSome (files.use_of self.old ino) }
        ensures opened { OnOk result (self.new ≡ files.opened
            (record { client = client; handle = handle; ino = ino; writable = writable }) self.old) }
        ensures as_before { OnErr result (self.new ≡ self.old) }
    {
        self.handles.push(client, handle, ino, writable)?;
        take_out(&mut self.dead, ino);
        Ok(())
    }

    /// A client closes a handle. False exactly where it has no such handle, and then nothing changes. A file without name
    /// and handle is dead. It takes no memory.
    pub fn close(&mut self, client: u8, handle: u8) -> bool
        ensures said { result ≡ is_some (open_of self.old.handles client handle) }
        ensures closed { self.new ≡ files.closed client handle self.old }
    {
        let Some(opened) = self.handles.get(client, handle) else {
            return false;
        };
        self.handles.remove(client, handle);
        if let Some(file) = use_of(&self.files, opened.ino) {
            let is_dead = is_dead(&self.handles, opened.ino, file);
            note(&mut self.dead, opened.ino, is_dead);
        }
        true
    }

    /// What a client has open under a handle. It takes no memory.
    pub fn opened(&self, client: u8, handle: u8) -> Option<Opened>
        ensures opened { result ≡ option_map opened_of (open_of self.now.handles client handle) }
    {
        self.handles.get(client, handle)
    }

    /// The store has dropped a file: it is dead no more. It takes no memory.
    pub fn dropped(&mut self, ino: Ino)
        requires there { IsSome (files.use_of self.old ino) }
        ensures dropped { self.new ≡ files.dropped ino self.old }
    {
        let Some(file) = use_of(&self.files, ino) else {
            return;
        };
        let dropped = true;
        set(&mut self.files, ino, FileUse { dropped, ..file });
        take_out(&mut self.dead, ino);
    }

    /// The least dead file that isn't among those that the store was sent already. It takes no memory.
    pub fn dead(&self, sent: &Inos) -> Option<Ino>
        ensures dead { result ≡ files.next_dead sent.now self.now }
    {
        first_unsent(&self.dead, sent)
    }

    /// The dead files, rising. It takes no memory.
    pub fn dead_files(&self) -> &[Ino]
        ensures dead { result.now ≡ files.dead_of self.now }
    {
        &self.dead
    }
}
