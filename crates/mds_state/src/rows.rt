// What a step gives: messages that needn't wait, and effects.
ghost use Rattle.std.specs.Prelude.{◌≡◌, ◌++◌, [], length, map, take, None, Option, IfOk, OnOk, true};
ghost use Rattle.std.specs.List.{list_all};
ghost use Rattle.plain_types.specs.declared.history.Sent.{Sent as Letter};
ghost use Rattle.step_table.specs.Acts as acts;
ghost use Rattle.step_table.specs.Acts.{goes, waits};
ghost use Rattle.step_table.specs.Messages.{plain_sent};
ghost use Rattle.step_table.specs.ServerRows.{left_with, takes_effect};
ghost use Rattle.step_table.specs.ServerState.{Asked as Taken, Server};
ghost use Rattle.mds_state.specs.Stands.{AllFollow, StandsFor, sent_traces_fit};

use crate::state::MdsState;
use plain_types::{Effects, EntryList, Sending, Sent};
use snap_ids::NoMemory;
use std::alloc::Global;
use std::collections::VecDeque;

// Hands over the first messages that needn't wait.
fn hand_over(
    mail: &mut VecDeque<(u64, Sent)>,
    durable: u64,
    sent: &mut Vec<Sent>,
) -> Result<(), NoMemory>
    ensures sent { OnOk result (sent.new.items ≡ sent.old.items ++ goes durable mail.old.items) }
    ensures left { OnOk result (mail.new.items ≡ waits durable mail.old.items) }
{
    while let Some(letter) = mail.pop_front() {
        if letter.0 > durable {
            mail.push_front(letter)?;
            return Ok(());
        }
        sent.push(letter.1)?;
    }
    Ok(())
}

impl MdsState {
    /// The end of a step: what needn't wait is sent, up to the first message that must, and nothing is in hand.
    pub fn hand_out(&mut self) -> Result<Sending, NoMemory>
        ensures clients { OnOk result (self.new.clients ≡ self.old.clients) }
        ensures sent { IfOk result (λ sent. (s : Server) (taken : Option Taken) → StandsFor self.old taken s
            → map plain_sent sent ≡ (acts.hand_out s).sent) }
        ensures traces { IfOk result (λ sent. (s : Server) (taken : Option Taken) → StandsFor self.old taken s
            → list_all sent_traces_fit sent ≡ true) }
        ensures table { OnOk result ((s : Server) (taken : Option Taken) → StandsFor self.old taken s
            → StandsFor self.new None (acts.hand_out s).state) }
    {
        let alloc = *self.purging.allocator();
        let mut sent = Vec::new(alloc);
        let durable = self.written.durable();
        hand_over(&mut self.mail, durable, &mut sent)?;
        Ok(Sending::from_vec(sent))
    }

    /// All entries are durable. Gives the changes that take effect with that.
    pub fn commit(&mut self) -> Result<Effects, NoMemory>
        ensures clients { OnOk result (self.new.clients ≡ self.old.clients) }
        ensures effects { IfOk result (λ effects. (s : Server) (taken : Option Taken) → StandsFor self.old taken s
            → effects ≡ takes_effect s (length s.entries)) }
        ensures table { OnOk result ((s : Server) (taken : Option Taken) → StandsFor self.old taken s
            → StandsFor self.new taken (record s { durable = length s.entries })) }
    {
        let effects = self.written.commit()?;
        Ok(effects)
    }

    /// The state that is left after a restart, from the entries that survived, all of which are durable. No client is
    /// connected, nothing is held and nothing waits.
    pub fn restarted(alloc: Global, clients: u8, entries: EntryList) -> Result<MdsState, NoMemory>
        requires { AllFollow clients [] entries }
        ensures parts { IfOk result (λ state. state.clients ≡ clients) }
        ensures table { IfOk result (λ state. (s : Server) → s.clients ≡ clients
            → take (length entries) s.entries ≡ entries → StandsFor state None (left_with s (length entries))) }
    {
        let mut state = MdsState::lost(alloc, clients)?;
        for entry in entries.into_vec() {
            state.enter(entry)?;
        }
        state.commit()?;
        Ok(state)
    }
}
