// Requests that wait.
ghost use Rattle.std.specs.Prelude.{◌≡◌, None, Some, Option, IfOk, OnOk, length, option_map};
ghost use Rattle.std.specs.List.{list_all};
ghost use Rattle.held_files.specs.Files.{is_empty};
ghost use Rattle.held_requests.specs.Waits.{clients_of};
ghost use Rattle.step_table.specs.Acts.{act, Wait, Defer, DeferFirst, TakeHeld, TakeDeferred, TakeOperation};
ghost use Rattle.step_table.specs.Background as background;
ghost use Rattle.step_table.specs.ServerState.{Asked as Taken, Server, up_to};
ghost use Rattle.mds_state.specs.Stands.{StandsFor};

use crate::state::MdsState;
use held_requests::{Asked, waits_are_the_tables};
use snap_ids::NoMemory;

impl MdsState {
    /// The request in hand is held: it is decided anew when something opens.
    pub fn wait(&mut self, asked: Asked) -> Result<(), NoMemory>
        ensures clients { OnOk result (self.new.clients ≡ self.old.clients) }
        ensures table { OnOk result ((s : Server) → StandsFor self.old (Some asked) s → StandsFor self.new None (act s Wait)) }
    {
        self.held.push_back(asked)?;
        Ok(())
    }

    /// The operation on the table of snapshots in hand is deferred behind the others.
    pub fn defer(&mut self, asked: Asked) -> Result<(), NoMemory>
        ensures clients { OnOk result (self.new.clients ≡ self.old.clients) }
        ensures table { OnOk result ((s : Server) → StandsFor self.old (Some asked) s → StandsFor self.new None (act s Defer)) }
    {
        self.deferred.push_back(asked)?;
        Ok(())
    }

    /// It is deferred before the others.
    pub fn defer_first(&mut self, asked: Asked) -> Result<(), NoMemory>
        ensures clients { OnOk result (self.new.clients ≡ self.old.clients) }
        ensures table { OnOk result ((s : Server) → StandsFor self.old (Some asked) s
            → StandsFor self.new None (act s DeferFirst)) }
    {
        self.deferred.push_front(asked)?;
        Ok(())
    }

    /// The clients of the held requests, by arrival.
    pub fn held_clients(&self) -> Result<Vec<u8>, NoMemory>
        ensures { IfOk result (λ clients. (s : Server) (taken : Option Taken) → StandsFor self.now taken s
            → clients.items ≡ clients_of s.held) }
    {
        let clients = self.held.clients()?;
        Ok(clients)
    }

    /// How many requests are held.
    pub fn many_held(&self) -> usize
        ensures { (s : Server) (taken : Option Taken) → StandsFor self.now taken s → result ≡ length s.held }
    {
        self.held.len()
    }

    /// The barrier at which the first held request waits: None where there is none, or it waits for something else. It takes
    /// no memory.
    pub fn first_barrier(&self) -> Option<u64>
        ensures { (s : Server) (taken : Option Taken) → StandsFor self.now taken s → result ≡ background.first_barrier s.held }
    {
        self.held.first_barrier()
    }

    /// Whether each client waits at a barrier. It takes no memory.
    pub fn all_wait_at(&self, number: u64) -> bool
        ensures { (s : Server) (taken : Option Taken) → StandsFor self.now taken s
            → result ≡ list_all (background.waits_at s number) (up_to s.clients) }
    {
        waits_are_the_tables();
        self.held.all_wait_at(number, self.clients)
    }

    /// The request of the outstanding operation. None after a restart, or where no operation is outstanding. It takes no
    /// memory.
    pub fn operation_request(&self) -> Option<&Asked>
        ensures { (s : Server) (taken : Option Taken) → StandsFor self.now taken s
            → option_map (λ asked. asked.now) result ≡ s.operation }
    {
        self.operation.as_ref()
    }

    /// Whether no operation is deferred.
    pub fn none_deferred(&self) -> bool
        ensures { (s : Server) (taken : Option Taken) → StandsFor self.now taken s → result ≡ is_empty s.deferred }
    {
        self.deferred.is_empty()
    }

    /// A client's held request comes into the hand.
    pub fn take_held(&mut self, client: u8) -> Option<Asked>
        ensures clients { self.new.clients ≡ self.old.clients }
        ensures table { (s : Server) (taken : Option Taken) → StandsFor self.old taken s
            → StandsFor self.new result (act s (TakeHeld client)) }
    {
        self.held.take_of(client)
    }

    /// The first deferred operation comes into the hand.
    pub fn take_deferred(&mut self) -> Option<Asked>
        ensures clients { self.new.clients ≡ self.old.clients }
        ensures table { (s : Server) (taken : Option Taken) → StandsFor self.old taken s
            → StandsFor self.new result (act s TakeDeferred) }
    {
        self.deferred.take_first()
    }

    /// The request of the outstanding operation comes into the hand.
    pub fn take_operation(&mut self) -> Option<Asked>
        ensures clients { self.new.clients ≡ self.old.clients }
        ensures table { (s : Server) (taken : Option Taken) → StandsFor self.old taken s
            → StandsFor self.new result (act s TakeOperation) }
    {
        self.operation.take()
    }
}
