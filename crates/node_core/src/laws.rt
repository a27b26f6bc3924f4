// What the definitions of steps come to.
ghost use Rattle.std.specs.Prelude.{◌≡◌, ◌≢◌, ◌+◌, ◌<◌, ℕ, Some, true, false};
ghost use Rattle.plain_types.specs.declared.history.Step.{Step};
ghost use Rattle.plain_types.specs.declared.history.Step.TheVariants.{ServerTakes, StoreTakes};
ghost use Rattle.plain_types.specs.declared.message.Message.{Message};
ghost use Rattle.node_core.specs.Steps.{is_step_of, are_peers, taking_step, taken_from, message_fits};

/// A step is one node's alone.
pub fn a_step_is_one_nodes()
    ensures { (clients a b : ℕ) (step : Step) → is_step_of clients a step ≡ true → is_step_of clients b step ≡ true → a ≡ b }
{}

/// What a node sends to a peer, that one takes in a step of its own, and from that node.
pub fn a_peer_takes_what_is_sent()
    ensures its_step { (clients a b : ℕ) → are_peers clients a b ≡ true → is_step_of clients b (taking_step clients a b) ≡ true }
    ensures from_the_sender { (clients a b : ℕ) → are_peers clients a b ≡ true → taken_from clients (taking_step clients a b) ≡ Some a }
    ensures both_ways { (clients a b : ℕ) → are_peers clients a b ≡ true → are_peers clients b a ≡ true }
{}

/// What the server sends to the store no client does, and what the store sends to the server no client does.
pub fn orders_and_reports_are_their_own()
    ensures order { (clients n : ℕ) (message : Message) → 0 < n
        → message_fits clients (StoreTakes 0) message ≡ true → message_fits clients (StoreTakes n) message ≡ false }
    ensures report { (clients n : ℕ) (message : Message) → n ≢ clients + 1
        → message_fits clients (ServerTakes (clients + 1)) message ≡ true → message_fits clients (ServerTakes n) message ≡ false }
{}
