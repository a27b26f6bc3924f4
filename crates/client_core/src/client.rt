// A client.
ghost use Rattle.std.specs.Prelude.{◌≡◌, ◌≤◌, ◌+◌, ◌<◌, ℕ, [], None, Some, IfOk, OnErr, IsErr, true};
ghost use Rattle.plain_types.specs.declared.history.Step.TheVariants as step;
ghost use Rattle.step_table.specs.World.{lines_of};
ghost use Rattle.step_table.specs.ClientLines.{on_op, on_flush};
ghost use Rattle.step_table.specs.ClientState.{connects, new_client};
ghost use Rattle.step_table.specs.ClientTakes.{on_told, on_stored};
ghost use Rattle.client_core.specs.Rows.{IsClient, Makes, breaks_next, has_row, number_of};

use crate::lines::lines_of;
use client_lines::{flush, op};
use client_state::{Acted, ClientState};
use client_takes::{take_stored, take_told};
use plain_types::{Done, FromStore, Lines, Step, ToClient};
use snap_ids::NoMemory;
use std::alloc::Global;
use std::marker::Model;

/// A client as a node. Contracts see its state in the protocol's table, until want of memory ended it.
#[derive(Drop)]
pub struct Client {
    pub(crate) state: Option<ClientState>,
}

impl Model for Client {
    ghost use Rattle.std.specs.Prelude.{Option};
    ghost use Rattle.step_table.specs.ClientState.{Client as State};

    ghost Value = { Option State };

    ghost view = { λ client. client.state };
}

// What a step came to.
fn done(step: Step, acted: Acted) -> Done
    ensures { result ≡ record { step = step; sent = acted.sent; effects = acted.effects; replies = acted.replies } }
{
    Done {
        step,
        sent: acted.sent,
        effects: acted.effects,
        replies: acted.replies,
    }
}

impl Client {
    /// The client of this number among so many, with its own lines of a script's. It talks with the server, which is node 0,
    /// and with the store, which is the node behind the last client.
    pub fn new(alloc: Global, number: u8, clients: u8, lines: &Lines) -> Result<Client, NoMemory>
        requires from_one { 1 ≤ number }
        requires upto { number ≤ clients }
        requires few { clients < 255 }
        ensures first { IfOk result (λ client. client ≡ Some (new_client number (clients + 1) (lines_of number lines.now))) }
        ensures stands { IfOk result (λ client. IsClient client number clients) }
    {
        let own = lines_of(alloc, number, lines.as_slice())?;
        Ok(Client {
            state: Some(ClientState::new(alloc, number, clients, own)),
        })
    }

    /// Goes on with its lines: the next one begins. The step may be made. After want of memory the client is ended.
    pub fn op(&mut self) -> Result<Done, NoMemory>
        requires may { has_row on_op self.old ≡ true }
        ensures row { IfOk result (λ done. Makes on_op self.old done self.new) }
        ensures step { IfOk result (λ done. done.step ≡ step.Op (number_of self.old)) }
        ensures ends { OnErr result (self.new ≡ None) }
        ensures is_ended { self.old ≡ None → IsErr result }
    {
        let Some(mut state) = self.state.take() else {
            return Err(NoMemory);
        };
        let number = state.number();
        match op(&mut state) {
            Ok(acted) => {
                self.state = Some(state);
                Ok(done(Step::Op(number), acted))
            }
            Err(error) => {
                drop(state);
                Err(error)
            }
        }
    }

    /// Breaks its link to the server and connects anew, as its next line says, also where another line is under way. After
    /// want of memory the client is ended.
    pub fn break_link(&mut self) -> Result<Done, NoMemory>
        requires may { breaks_next self.old ≡ true }
        ensures row { IfOk result (λ done. Makes on_op self.old done self.new) }
        ensures step { IfOk result (λ done. done.step ≡ step.Op (number_of self.old)) }
        ensures ends { OnErr result (self.new ≡ None) }
        ensures is_ended { self.old ≡ None → IsErr result }
    {
        self.op()
    }

    /// Sends what is due. The step may be made. After want of memory the client is ended.
    pub fn flush(&mut self) -> Result<Done, NoMemory>
        requires may { has_row on_flush self.old ≡ true }
        ensures row { IfOk result (λ done. Makes on_flush self.old done self.new) }
        ensures step { IfOk result (λ done. done.step ≡ step.Flush (number_of self.old)) }
        ensures ends { OnErr result (self.new ≡ None) }
        ensures is_ended { self.old ≡ None → IsErr result }
    {
        let Some(mut state) = self.state.take() else {
            return Err(NoMemory);
        };
        let number = state.number();
        match flush(&mut state) {
            Ok(acted) => {
                self.state = Some(state);
                Ok(done(Step::Flush(number), acted))
            }
            Err(error) => {
                drop(state);
                Err(error)
            }
        }
    }

    /// Takes a message of the server. After want of memory the client is ended.
    pub fn take_server(&mut self, message: ToClient) -> Result<Done, NoMemory>
        ensures row { IfOk result (λ done. Makes (λ c. Some (on_told c message)) self.old done self.new) }
        ensures step { IfOk result (λ done. done.step ≡ step.ClientFromServer (number_of self.old)) }
        ensures ends { OnErr result (self.new ≡ None) }
        ensures is_ended { self.old ≡ None → IsErr result }
    {
        let Some(mut state) = self.state.take() else {
            drop(message);
            return Err(NoMemory);
        };
        let number = state.number();
        match take_told(&mut state, message) {
            Ok(acted) => {
                self.state = Some(state);
                Ok(done(Step::ClientFromServer(number), acted))
            }
            Err(error) => {
                drop(state);
                Err(error)
            }
        }
    }

    /// Takes a message of the store. After want of memory the client is ended.
    pub fn take_store(&mut self, message: FromStore) -> Result<Done, NoMemory>
        ensures row { IfOk result (λ done. Makes (λ c. Some (on_stored c message)) self.old done self.new) }
        ensures step { IfOk result (λ done. done.step ≡ step.ClientFromStore (number_of self.old)) }
        ensures ends { OnErr result (self.new ≡ None) }
        ensures is_ended { self.old ≡ None → IsErr result }
    {
        let Some(mut state) = self.state.take() else {
            drop(message);
            return Err(NoMemory);
        };
        let number = state.number();
        match take_stored(&mut state, message) {
            Ok(acted) => {
                self.state = Some(state);
                Ok(done(Step::ClientFromStore(number), acted))
            }
            Err(error) => {
                drop(state);
                Err(error)
            }
        }
    }
}
