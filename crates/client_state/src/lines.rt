// Lines that begin, and changes of bytes.
ghost use Rattle.std.specs.Prelude.{◌≡◌, ◌∷◌, ◌+◌, true, drop, length, is_some, Some, IfOk, OnOk};
ghost use Rattle.held_files.specs.declared.piece.Piece.TheVariants.{Put, Cut};
ghost use Rattle.held_files.specs.Files.{is_writer, with_piece};
ghost use Rattle.step_table.specs.Messages.{is_size};
ghost use Rattle.step_table.specs.ClientState.{Edit, context_in, edit_of, edits, on_file};
ghost use Rattle.step_table.specs.ClientTakes.{goes_on};
ghost use Rattle.client_state.specs.Acts.{row_of, is_ready, with_begun, can_edit, edited};
ghost use Rattle.client_state.specs.Made.{editing};

use crate::acted::Acted;
use crate::state::ClientState;
use crate::under_way::UnderWay;
use plain_types::{Answer, Change, Effect, Line, Replied};
use snap_ids::{Bytes, Ino, NoMemory, SnapContext};
use std::alloc::Global;

// Whether a line is a change of bytes.
fn is_edit(line: &Line) -> bool
    ensures { result ≡ is_some (edit_of line.now) }
{
    match line {
        Line::Write { .. } => true,
        Line::Truncate { .. } => true,
        _ => false,
    }
}

// A client's own change takes effect, and its line is answered.
fn editing(alloc: Global, client: u8, number: u32, change: Change) -> Result<Acted, NoMemory>
    ensures { IfOk result (λ acted. acted ≡ editing client number change) }
{
    let mut acted = Acted::replying(
        alloc,
        Replied {
            client,
            line: number,
            changed: true,
            entry: 0,
            answer: Answer::Done,
        },
    )?;
    acted.effects.push(Effect {
        client,
        entry: 0,
        change,
    })?;
    Ok(acted)
}

impl ClientState {
    /// The next line begins: it is taken off. The client has at most 2^31 lines.
    pub fn begin_line(&mut self) -> Result<Line, NoMemory>
        requires { is_ready self.old ≡ true }
        ensures line { IfOk result (λ line. self.old.lines ≡ line ∷ drop 1 self.old.lines) }
        ensures begun { OnOk result (self.new ≡ with_begun self.old) }
    {
        if self.begun >= 1 << 31 {
            return Err(NoMemory);
        }
        let Some(line) = self.lines.pop_front() else {
            return Err(NoMemory);
        };
        self.begun += 1;
        Ok(line)
    }

    // A copy of a file's context.
    fn context_of(&self, ino: Ino) -> Result<SnapContext, NoMemory>
        ensures { IfOk result (λ context. context ≡ context_in self.now.contexts ino) }
    {
        self.contexts.copied(ino)
    }

    // Keeps a write to a file back.
    fn keep_write(
        &mut self,
        ino: Ino,
        offset: u32,
        bytes: Bytes,
        context: SnapContext,
    ) -> Result<(), NoMemory>
        requires fits { is_size (offset + length bytes) ≡ true }
        requires held { is_writer ino self.old.files ≡ true }
        ensures { OnOk result (self.new ≡ on_file self.old ino (with_piece (Put offset bytes context))) }
    {
        match self.files.write(ino, offset, bytes, context) {
            Ok(()) => Ok(()),
            Err(_) => Err(NoMemory),
        }
    }

    // Keeps a new length of a file back.
    fn keep_cut(&mut self, ino: Ino, size: u32, context: SnapContext) -> Result<(), NoMemory>
        requires fits { is_size size ≡ true }
        requires held { is_writer ino self.old.files ≡ true }
        ensures { OnOk result (self.new ≡ on_file self.old ino (with_piece (Cut size context))) }
    {
        match self.files.truncate(ino, size, context) {
            Ok(()) => Ok(()),
            Err(_) => Err(NoMemory),
        }
    }

    // A change has taken effect, and its line is answered.
    fn edited(&mut self, number: u32, change: Change) -> Result<Acted, NoMemory>
        ensures { IfOk result (λ acted. row_of self.new acted ≡ edited self.old number change) }
    {
        let client = self.number;
        self.under = UnderWay::Idle;
        editing(self.alloc, client, number, change)
    }

    /// A change of bytes, `write` or `truncate`, takes effect on a file that is held for Write, with the context that the
    /// file has now.
    pub fn edit(&mut self, number: u32, ino: Ino, line: Line) -> Result<Acted, NoMemory>
        requires { can_edit (edit_of line) ino self.old.files ≡ true }
        ensures { IfOk result (λ acted. (e : Edit) → edit_of line ≡ Some e → row_of self.new acted ≡ edits self.old number ino e) }
    {
        let context = self.context_of(ino)?;
        match line {
            Line::Write {
                handle,
                offset,
                bytes,
            } => {
                let kept = bytes.clone()?;
                self.keep_write(ino, offset, kept, context)?;
                self.edited(
                    number,
                    Change::WriteFile {
                        handle,
                        offset,
                        bytes,
                    },
                )
            }
            Line::Truncate { handle, length } => {
                self.keep_cut(ino, length, context)?;
                self.edited(number, Change::Truncate { handle, length })
            }
            _ => Ok(self.stay()),
        }
    }

    /// The line that asked for a capability goes on with it: a change takes effect, a read asks the store.
    pub fn go_on(&mut self, number: u32, ino: Ino, line: Line) -> Result<Acted, NoMemory>
        requires { can_edit (edit_of line) ino self.old.files ≡ true }
        ensures { IfOk result (λ acted. row_of self.new acted ≡ goes_on self.old number ino (edit_of line)) }
    {
        if is_edit(&line) {
            return self.edit(number, ino, line);
        }
        self.read_head(number, 0, ino)
    }
}
