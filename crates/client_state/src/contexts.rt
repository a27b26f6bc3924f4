// The contexts of the files that a client holds for writing.
ghost use Rattle.std.specs.Prelude.{◌≡◌, [], true, if◌then◌else◌, IfOk, OnOk};
ghost use Rattle.held_files.specs.Files.{is_write};
ghost use Rattle.step_table.specs.ClientState.{context_at_first, context_in, without_context, with_context};
ghost use Rattle.step_table.specs.Messages.{trace_fits, context_by};

use indexmap::IndexMap;
use plain_types::FileTrace;
use snap_ids::{Ino, Mode, NoMemory, SnapContext, SnapId, Trace, context_of};
use std::alloc::Global;
use std::marker::Model;

/// The contexts of the files that a client holds for writing, in the order in which they were given. Contracts see the
/// list of them.
#[derive(Drop)]
pub(crate) struct Contexts {
    alloc: Global,
    contexts: IndexMap<Ino, SnapContext>,
}

impl Model for Contexts {
    ghost use Rattle.std.specs.Prelude.{List};
    ghost use Rattle.snap_ids.specs.declared.id.Ino.{Ino as Inode};
    ghost use Rattle.snap_ids.specs.Context.{Context};

    ghost Value = { List (Inode × Context) };

    ghost view = { λ known. known.contexts.entries };
}

// The context of a file of which nothing is known.
fn first_context(alloc: Global) -> Result<SnapContext, NoMemory>
    ensures { IfOk result (λ context. context ≡ context_at_first) }
{
    context_of(alloc, &Trace::new(alloc), SnapId(0))
}

// A copy of a context.
fn copy_of(context: &SnapContext) -> Result<SnapContext, NoMemory>
    ensures { IfOk result (λ copy. copy ≡ context.now) }
{
    Ok(context.clone()?)
}

impl Contexts {
    // No file is held. It takes no memory.
    pub(crate) fn new(alloc: Global) -> Contexts
        ensures { result ≡ [] }
    {
        Contexts {
            alloc,
            contexts: IndexMap::new(alloc),
        }
    }

    // The sequence id of a file's context.
    pub(crate) fn seq_of(&self, ino: Ino) -> SnapId
        ensures { result ≡ (context_in self.now ino).seq }
    {
        match self.contexts.get(&ino) {
            Some(context) => context.seq(),
            None => SnapId(1),
        }
    }

    // A copy of a file's context.
    pub(crate) fn copied(&self, ino: Ino) -> Result<SnapContext, NoMemory>
        ensures { IfOk result (λ context. context ≡ context_in self.now ino) }
    {
        match self.contexts.get(&ino) {
            Some(context) => copy_of(context),
            None => first_context(self.alloc),
        }
    }

    // A file is held for writing no more.
    pub(crate) fn let_go(&mut self, ino: Ino)
        ensures { self.new ≡ without_context ino self.old }
    {
        self.contexts.shift_remove(&ino);
    }

    // A file has a new context.
    pub(crate) fn put(&mut self, ino: Ino, context: SnapContext) -> Result<(), NoMemory>
        ensures { OnOk result (self.new ≡ with_context ino context self.old) }
    {
        self.contexts.shift_remove(&ino);
        self.contexts.insert(ino, context)?;
        Ok(())
    }

    // A file is granted: for Write with the context of its trace.
    pub(crate) fn grant(&mut self, ino: Ino, mode: Mode, file: &FileTrace) -> Result<(), NoMemory>
        requires { trace_fits file.now ≡ true }
        ensures { OnOk result (self.new
            ≡ (if is_write mode then with_context ino (context_by file.now) self.old else self.old)) }
    {
        match mode {
            Mode::Write => {
                let context = context_of(self.alloc, &file.trace, file.birth)?;
                self.put(ino, context)
            }
            Mode::Read => Ok(()),
        }
    }
}
