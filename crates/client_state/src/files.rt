// What the server and the store say of files.
ghost use Rattle.std.specs.Prelude.{◌≡◌, ◌||◌, ◌∷◌, [], true, false, not, Some, IfOk, OnOk};
ghost use Rattle.std.specs.List.{list_all};
ghost use Rattle.snap_ids.specs.declared.values.Mode.TheVariants.{Write};
ghost use Rattle.held_files.specs.Files.{is_writer, recalled, stored};
ghost use Rattle.held_files.specs.Due.{first_due, sent};
ghost use Rattle.step_table.specs.Messages.{trace_fits, context_by};
ghost use Rattle.step_table.specs.ClientState.{on_file, context_in};
ghost use Rattle.step_table.specs.ClientLines.{reading};
ghost use Rattle.step_table.specs.ClientTakes.{marked, renewed, updated, granted, found};

use crate::state::ClientState;
use crate::under_way::UnderWay;
use held_files::Due;
use plain_types::{FileTrace, SnapUpdate};
use snap_ids::{Ino, Mode, NoMemory, SnapContext, SnapId, context_of};

impl ClientState {
    /// What is due counts as sent.
    pub fn count_sent(&mut self, due: &Due)
        requires { first_due (reading self.old.under) self.old.files ≡ Some due.now }
        ensures { self.new ≡ record self.old { files = sent due.now self.old.files } }
    {
        self.files.sent(due);
    }

    // Where a file's context grows to another, a mark of its size is kept for the server.
    fn keep_mark(&mut self, ino: Ino, context: &SnapContext) -> Result<(), NoMemory>
        requires { is_writer ino self.old.files ≡ true }
        ensures { OnOk result (self.new ≡ on_file self.old ino (marked (context_in self.old.contexts ino) context.now)) }
    {
        let old = self.seq_of(ino);
        let new = context.seq();
        let size = self.size_of(ino);
        if old < new {
            self.files.queue(ino, old, new, size)?;
            return Ok(());
        }
        Ok(())
    }

    // A file that is held for Write has a new context; where its sequence id grows, a mark is kept.
    fn take_context(&mut self, ino: Ino, context: SnapContext) -> Result<(), NoMemory>
        requires { is_writer ino self.old.files ≡ true }
        ensures { OnOk result (self.new ≡ renewed self.old ino context) }
    {
        self.keep_mark(ino, &context)?;
        self.contexts.put(ino, context)?;
        Ok(())
    }

    // The context that a trace gives.
    fn given(&self, file: &FileTrace) -> Result<SnapContext, NoMemory>
        requires { trace_fits file.now ≡ true }
        ensures { IfOk result (λ context. context ≡ context_by file.now) }
    {
        context_of(self.alloc, &file.trace, file.birth)
    }

    // The context of a file is taken where it is held for Write.
    fn renew(&mut self, file: &FileTrace) -> Result<(), NoMemory>
        requires { trace_fits file.now ≡ true }
        ensures { OnOk result (self.new ≡ updated self.old (file.now ∷ [])) }
    {
        if self.writes(file.ino) {
            let context = self.given(file)?;
            self.take_context(file.ino, context)?;
            return Ok(());
        }
        Ok(())
    }

    /// The contexts of an update are taken, and where a file's sequence id grows, a mark of its size is kept for the
    /// server. A file that isn't held for Write is passed over.
    pub fn update(&mut self, update: &SnapUpdate) -> Result<(), NoMemory>
        requires { list_all trace_fits update.now ≡ true }
        ensures { OnOk result (self.new ≡ updated self.old update.now) }
    {
        let mut left = update.as_slice();
        while let Some((file, rest)) = left.split_first() {
            self.renew(file)?;
            left = rest;
        }
        Ok(())
    }

    /// A file is granted that isn't held for Write; for Write with its context. Nothing is under way then.
    pub fn grant(
        &mut self,
        ino: Ino,
        mode: Mode,
        size: u32,
        settled: SnapId,
        file: &FileTrace,
    ) -> Result<(), NoMemory>
        requires not_held { is_writer ino self.old.files ≡ false }
        requires fits { trace_fits file.now ≡ true }
        ensures granted { OnOk result (self.new ≡ granted self.old ino mode size settled file.now) }
        ensures writes { OnOk result (mode ≡ Write → is_writer ino self.new.files ≡ true) }
    {
        self.files.hold(ino, mode, size, settled)?;
        self.contexts.grant(ino, mode, file)?;
        self.under = UnderWay::Idle;
        Ok(())
    }

    /// A live file that was found is held for Read, unless the client writes it.
    pub fn find(
        &mut self,
        ino: Ino,
        size: u32,
        settled: SnapId,
        write_held: bool,
    ) -> Result<(), NoMemory>
        requires { write_held || not (is_writer ino self.old.files) ≡ true }
        ensures { OnOk result (self.new ≡ found self.old ino size settled write_held) }
    {
        if write_held {
            return Ok(());
        }
        self.files.hold(ino, Mode::Read, size, settled)?;
        Ok(())
    }

    /// The server wants a file back.
    pub fn recalled(&mut self, ino: Ino)
        ensures { self.new ≡ on_file self.old ino recalled }
    {
        self.files.recall(ino);
    }

    /// The store has acknowledged the oldest piece of a file that was sent.
    pub fn stored(&mut self, ino: Ino)
        ensures { self.new ≡ on_file self.old ino stored }
    {
        self.files.stored(ino);
    }
}
