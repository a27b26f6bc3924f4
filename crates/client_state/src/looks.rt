// What is read off a client's state.
ghost use Rattle.std.specs.Prelude.{◌≡◌, ◌&&◌, true, not, IfOk};
ghost use Rattle.std.specs.List.{list_any, slice_get};
ghost use Rattle.std.specs.Option.{option_copied};
ghost use Rattle.held_files.specs.Files.{is_ino, is_held, is_writer, file_of};
ghost use Rattle.held_files.specs.Due.{first_due};
ghost use Rattle.step_table.specs.ClientState.{size_of, context_in};
ghost use Rattle.step_table.specs.ClientLines.{may_begin, order_of, opened, reading, unsent_in};
ghost use Rattle.step_table.specs.ClientTakes.{conn_of, is_conn, is_own, may_take, bytes_with};
ghost use Rattle.client_state.specs.Acts.{under_of, under_fits, is_ready, let_go_in, order_in, size_kept};

use crate::handles::OpenFile;
use crate::state::ClientState;
use crate::under_way::UnderWay;
use file_buffer::FileBuf;
use held_files::{Due, Piece};
use plain_types::{Line, ToClient, ToStore};
use snap_ids::{Bytes, Ino, NoMemory, SnapId};

// The connection number of a message of the server; a restart is told without one.
fn conn_of(told: &ToClient) -> Option<u64>
    ensures { result ≡ conn_of told.now }
{
    match told {
        ToClient::Reply { conn, .. } => Some(*conn),
        ToClient::Grant { conn, .. } => Some(*conn),
        ToClient::Recall { conn, .. } => Some(*conn),
        ToClient::Notice { conn, .. } => Some(*conn),
        ToClient::FlushAck { conn, .. } => Some(*conn),
        ToClient::Welcome { conn, .. } => Some(*conn),
        ToClient::Restarted { .. } => None,
    }
}

// A piece as the store is sent it.
fn order_of(ino: Ino, piece: &Piece) -> Result<ToStore, NoMemory>
    ensures { IfOk result (λ order. order ≡ order_of ino piece.now) }
{
    match piece {
        Piece::Put {
            offset,
            bytes,
            context,
        } => Ok(ToStore::WriteAt {
            ino,
            offset: *offset,
            bytes: bytes.clone()?,
            context: context.clone()?,
        }),
        Piece::Cut { length, context } => Ok(ToStore::Cut {
            ino,
            length: *length,
            context: context.clone()?,
        }),
    }
}

// Whether a line may begin.
fn can_begin(frozen: bool, under: &UnderWay, line: &Line) -> bool
    ensures { result ≡ not frozen && may_begin (under_of under.now) line.now }
{
    !frozen && under.lets_begin(line)
}

// Whether a message is of a connection.
fn is_of(conn: u64, other: Option<u64>) -> bool
    ensures { result ≡ is_conn conn other }
{
    match other {
        Some(other) => other == conn,
        None => false,
    }
}

// A file's size, if there is one.
fn size_in(file: Option<&FileBuf>) -> u32
    ensures { result ≡ size_kept (option_copied file.entry) }
{
    match file {
        Some(file) => file.size(),
        None => 0,
    }
}

impl ClientState {
    /// The client's number.
    pub fn number(&self) -> u8
        ensures { result ≡ self.now.number }
    {
        self.number
    }

    /// Whether it waits for the server to welcome its connection.
    pub fn is_frozen(&self) -> bool
        ensures { result ≡ self.now.frozen }
    {
        self.frozen
    }

    /// How many lines it has begun.
    pub fn begun(&self) -> u32
        ensures { result ≡ self.now.begun }
    {
        self.begun
    }

    /// Its connection's number.
    pub fn conn(&self) -> u64
        ensures { result ≡ self.now.conn }
    {
        self.conn
    }

    /// The next line, if one is left.
    pub fn next_line(&self) -> Option<&Line>
        ensures { option_copied result ≡ slice_get self.now.lines 0 }
    {
        match self.lines.front() {
            Some(line) => Some(line),
            None => None,
        }
    }

    /// Whether a line is left and may begin: none is under way, or it is `break`; and the client isn't frozen.
    pub fn may_begin(&self) -> bool
        ensures { result ≡ is_ready self.now }
    {
        match self.lines.front() {
            Some(line) => can_begin(self.frozen, &self.under, line),
            None => false,
        }
    }

    /// What is under way. A change of bytes among it ends within the largest file, and asks for its file for Write.
    pub fn under(&self) -> &UnderWay
        ensures under { under_of result.now ≡ self.now.under }
        ensures fits { under_fits self.now.under ≡ true }
    {
        &self.under
    }

    /// The file about which the store was asked.
    pub fn reading(&self) -> Option<Ino>
        ensures { result ≡ reading self.now.under }
    {
        self.under.reading()
    }

    /// What it has open under a number.
    pub fn opened(&self, handle: u8) -> Option<OpenFile>
        ensures { result ≡ opened self.now handle }
    {
        let number = self.number;
        self.handles
            .iter()
            .copied()
            .find(|open| open.is_handle(number, handle))
    }

    /// Whether it holds a file.
    pub fn holds(&self, ino: Ino) -> bool
        ensures { result ≡ is_held ino self.now.files }
    {
        match self.files.file(ino) {
            Some(_) => true,
            None => false,
        }
    }

    /// Whether it holds a file for Write.
    pub fn writes(&self, ino: Ino) -> bool
        ensures { result ≡ is_writer ino self.now.files }
    {
        self.files.is_writer(ino)
    }

    /// A held file's size in bytes; 0 where it isn't held.
    pub fn size_of(&self, ino: Ino) -> u32
        ensures { result ≡ size_of self.now ino }
    {
        size_in(self.files.file(ino))
    }

    /// The sequence id of a file's context; 1 where it isn't held for Write.
    pub fn seq_of(&self, ino: Ino) -> SnapId
        ensures { result ≡ (context_in self.now.contexts ino).seq }
    {
        self.contexts.seq_of(ino)
    }

    /// The due item of the first file that has one.
    pub fn first_due(&self) -> Option<Due>
        ensures { result ≡ first_due (reading self.now.under) self.now.files }
    {
        self.files.next_flush(self.reading())
    }

    /// The piece of a file that waits first, as the store is sent it, where no mark stands before it.
    pub fn order(&self, ino: Ino) -> Result<Option<ToStore>, NoMemory>
        ensures { IfOk result (λ order. order ≡ order_in ino (unsent_in (file_of ino self.now.files))) }
    {
        match self.files.first_piece(ino) {
            Some(piece) => Ok(Some(order_of(ino, piece)?)),
            None => Ok(None),
        }
    }

    /// Whether a message is of the client's connection.
    pub fn is_own(&self, told: &ToClient) -> bool
        ensures { result ≡ is_own self.now told.now }
    {
        is_of(self.conn, conn_of(told))
    }

    /// Whether a message may be taken: it is of the client's connection, or tells of a restart.
    pub fn may_take(&self, told: &ToClient) -> bool
        ensures { result ≡ may_take self.now told.now }
    {
        match conn_of(told) {
            Some(_) => self.is_own(told),
            None => true,
        }
    }

    /// Whether a file was let go since the open request was last sent.
    pub fn was_let_go(&self, ino: Ino) -> bool
        ensures { result ≡ list_any (is_ino ino) (let_go_in self.now.under) }
    {
        self.under.was_let_go(ino)
    }

    /// A file's stored bytes under what is kept back of them, where the live bytes were asked for and the file is held for
    /// Write; else the stored ones.
    pub fn bytes_with(&self, ino: Ino, head: bool, bytes: Bytes) -> Result<Bytes, NoMemory>
        ensures { IfOk result (λ all. all ≡ bytes_with (file_of ino self.now.files) head bytes) }
    {
        if !head {
            return Ok(bytes);
        }
        if !self.files.is_writer(ino) {
            return Ok(bytes);
        }
        match self.files.file(ino) {
            Some(file) => file.read_over(&bytes),
            None => Ok(bytes),
        }
    }
}
