// The handles under which clients have files open.
ghost use Rattle.std.specs.Prelude.{◌≡◌, ◌==◌, ◌++◌, ◌∷◌, ℕ, [], false, None, Some, find, option_map, OnOk, OnErr};
ghost use Rattle.std.specs.List.{list_any};
ghost use Rattle.plain_tree.specs.State.{Handle};
ghost use Rattle.plain_tree.specs.Change.{open_of};
ghost use Rattle.file_uses.specs.Handles.{opened_of, is_open, without_handle};
ghost use Rattle.file_uses.specs.Kept.{is_of, keeps_open};

use snap_ids::{Ino, NoMemory};
use std::alloc::Global;
use std::marker::Model;

/// A file that a client has open.
#[derive(Clone, Copy, Debug, PartialEq, Eq)]
pub struct Opened {
    pub ino: Ino,
    /// Whether the client may change it.
    pub writable: bool,
}

// A client's handle, and what it has open under it.
#[derive(Clone, Copy, Debug)]
pub(crate) struct OpenFile {
    client: u8,
    handle: u8,
    opened: Opened,
}

// The open handles, in the order in which they were opened. A client has each of its handles once.
#[derive(Debug, Drop)]
pub(crate) struct Handles {
    items: Vec<OpenFile>,
}

impl Model for Handles {
    ghost use Rattle.std.specs.Prelude.{List, map};
    ghost use Rattle.plain_tree.specs.State.{Handle};
    ghost use Rattle.file_uses.specs.Handles.{AreApart};
    ghost use Rattle.file_uses.specs.Kept.{handle_of};

    ghost Value = { List Handle };

    ghost view = { λ handles. map handle_of handles.items.items };

    ghost invariant = { λ handles. AreApart (map handle_of handles.items.items) };
}

// Whether it is this handle of the client.
fn is_of(file: &OpenFile, client: u8, handle: u8) -> bool
    ensures { result ≡ is_of client handle file.now }
{
    file.client == client && file.handle == handle
}

// Whether it holds the file open.
fn keeps_open(file: &OpenFile, ino: Ino) -> bool
    ensures { result ≡ keeps_open ino file.now }
{
    file.opened.ino.0 == ino.0
}

// What a client has open under a handle.
fn look_up(items: &[OpenFile], client: u8, handle: u8) -> Option<Opened>
    ensures { result ≡ option_map (λ file. file.opened) (find (is_of client handle) items.now) }
{
    items
        .iter()
        .find(|file| is_of(file, client, handle))
        .map(|file| file.opened)
}

// Whether one of the handles holds the file open.
fn is_kept_open(items: &[OpenFile], ino: Ino) -> bool
    ensures { result ≡ list_any (keeps_open ino) items.now }
{
    items.iter().any(|file| keeps_open(file, ino))
}

impl Handles {
    // No handle. It takes no memory.
    pub fn new(alloc: Global) -> Handles
        ensures { result ≡ [] }
    {
        Handles {
            items: Vec::new(alloc),
        }
    }

    // What a client has open under a handle.
    pub fn get(&self, client: u8, handle: u8) -> Option<Opened>
        ensures { result ≡ option_map opened_of (open_of self.now client handle) }
    {
        look_up(&self.items, client, handle)
    }

    // Whether a handle holds the file open.
    pub fn hold(&self, ino: Ino) -> bool
        ensures { result ≡ is_open self.now ino.0 }
    {
        is_kept_open(&self.items, ino)
    }

    // A client gets a handle that it doesn't have.
    pub fn push(&mut self, client: u8, handle: u8, ino: Ino, writable: bool) -> Result<(), NoMemory>
        requires { open_of self.old client handle ≡ None }
        ensures opened { OnOk result (self.new ≡ self.old
            ++ record { client = client; handle = handle; ino = ino; writable = writable } ∷ []) }
        ensures as_before { OnErr result (self.new ≡ self.old) }
    {
        self.items.push(OpenFile {
            client,
            handle,
            opened: Opened { ino, writable },
        })?;
        Ok(())
    }

    // A client has a handle no more. Files other than the one that it had open stay open.
    pub fn remove(&mut self, client: u8, handle: u8)
        ensures closed { self.new ≡ without_handle client handle self.old }
        ensures others { (closed : Handle) → open_of self.old client handle ≡ Some closed
            → (ino : ℕ) → (ino == closed.ino.0) ≡ false → is_open self.new ino ≡ is_open self.old ino }
    {
        self.items.retain(|file| !is_of(file, client, handle));
    }
}
