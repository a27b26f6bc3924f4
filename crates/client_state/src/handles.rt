// A file that a client has open.
ghost use Rattle.std.specs.Prelude.{◌≡◌};
ghost use Rattle.plain_tree.specs.Change.{is_handle};

use snap_ids::Ino;
use std::marker::Model;

/// A file that a client has open under a number of its own. Contracts see it as `plain_tree` has it.
#[derive(Clone, Copy, Debug)]
pub struct OpenFile {
    client: u8,
    handle: u8,
    ino: Ino,
    writable: bool,
}

impl Model for OpenFile {
    ghost use Rattle.plain_tree.specs.State.{Handle};

    ghost Value = { Handle };

    ghost view = { λ file. record { client = file.client; handle = file.handle; ino = file.ino; writable = file.writable } };

    ghost inverse = { λ file. record { client = file.client; handle = file.handle; ino = file.ino; writable = file.writable } };
}

impl OpenFile {
    /// A client's file, open under this number.
    pub fn new(client: u8, handle: u8, ino: Ino, writable: bool) -> OpenFile
        ensures { result ≡ record { client = client; handle = handle; ino = ino; writable = writable } }
    {
        OpenFile {
            client,
            handle,
            ino,
            writable,
        }
    }

    /// Whose it is.
    pub fn client(&self) -> u8
        ensures { result ≡ self.now.client }
    {
        self.client
    }

    /// Its number.
    pub fn handle(&self) -> u8
        ensures { result ≡ self.now.handle }
    {
        self.handle
    }

    // Whether it is a client's with this number.
    pub(crate) fn is_handle(&self, client: u8, handle: u8) -> bool
        ensures { result ≡ is_handle client handle self.now }
    {
        self.client == client && self.handle == handle
    }

    /// Which file it is.
    pub fn ino(&self) -> Ino
        ensures { result ≡ self.now.ino }
    {
        self.ino
    }

    /// Whether the file may be changed through it.
    pub fn writable(&self) -> bool
        ensures { result ≡ self.now.writable }
    {
        self.writable
    }
}
