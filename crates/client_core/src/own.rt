// Which steps are a client's own, and what each takes.
ghost use Rattle.std.specs.Prelude.{◌≡◌, ◌&&◌, ℕ, None, Some, IfSome, is_some, is_none};
ghost use Rattle.node_core.specs.Steps.{taken_fits};
ghost use Rattle.plain_types.specs.declared.history.Step.TheVariants as step;
ghost use Rattle.client_core.specs.Owns.{kind_step, step_of, taken_of, is_own_step};

use plain_types::{FromStore, Message, Step, ToClient};

// What a client makes in a step of its own.
#[derive(Drop)]
pub(crate) enum Own {
    Op,
    Flush,
    Told(ToClient),
    Stored(FromStore),
}

// Whether nothing is handed to a step that takes nothing.
fn is_nothing(message: Option<Message>) -> bool
    ensures { result ≡ is_none message }
{
    match message {
        Some(message) => {
            drop(message);
            false
        }
        None => true,
    }
}

// A message of the server, where it is one.
fn told(message: Option<Message>) -> Option<Own>
    ensures some { IfSome result (λ own. (step_of 0 own ≡ step.ClientFromServer 0) × (message ≡ taken_of own)) }
    ensures fits { is_some result ≡ taken_fits 0 (step.ClientFromServer 0) message }
{
    match message {
        Some(Message::ToClient(told)) => Some(Own::Told(told)),
        Some(Message::ToServer(_)) => None,
        Some(Message::ToStore(_)) => None,
        Some(Message::FromStore(_)) => None,
        None => None,
    }
}

// A message of the store, where it is one.
fn stored(message: Option<Message>) -> Option<Own>
    ensures some { IfSome result (λ own. (step_of 0 own ≡ step.ClientFromStore 0) × (message ≡ taken_of own)) }
    ensures fits { is_some result ≡ taken_fits 0 (step.ClientFromStore 0) message }
{
    match message {
        Some(Message::FromStore(said)) => Some(Own::Stored(said)),
        Some(Message::ToServer(_)) => None,
        Some(Message::ToStore(_)) => None,
        Some(Message::ToClient(_)) => None,
        None => None,
    }
}

// A kind of step of a client.
#[derive(Clone, Copy)]
enum Kind {
    Op,
    Flush,
    FromServer,
    FromStore,
}

// The kind of a step, where it is one of the client with this number.
fn kind_of(number: u8, step: &Step) -> Option<Kind>
    ensures some { IfSome result (λ kind. step.now ≡ kind_step number kind) }
    ensures own { is_some result ≡ is_own_step number step.now }
{
    match step {
        Step::Op(n) if *n == number => Some(Kind::Op),
        Step::Flush(n) if *n == number => Some(Kind::Flush),
        Step::ClientFromServer(n) if *n == number => Some(Kind::FromServer),
        Step::ClientFromStore(n) if *n == number => Some(Kind::FromStore),
        _ => None,
    }
}

// What a step of this kind takes.
fn own_of(kind: Kind, message: Option<Message>) -> Option<Own>
    ensures some { IfSome result (λ own. ((number : ℕ) → kind_step number kind ≡ step_of number own) × (message ≡ taken_of own)) }
    ensures fits { (number : ℕ) → is_some result ≡ taken_fits 0 (kind_step number kind) message }
{
    match kind {
        Kind::Op => {
            if is_nothing(message) {
                Some(Own::Op)
            } else {
                None
            }
        }
        Kind::Flush => {
            if is_nothing(message) {
                Some(Own::Flush)
            } else {
                None
            }
        }
        Kind::FromServer => told(message),
        Kind::FromStore => stored(message),
    }
}

// What a step of any node is to the client with this number: None where it isn't the client's, or what is handed to it
// doesn't fit.
pub(crate) fn own_step(number: u8, step: &Step, message: Option<Message>) -> Option<Own>
    ensures some { IfSome result (λ own. (step.now ≡ step_of number own) × (message ≡ taken_of own)) }
    ensures fits { is_some result ≡ is_own_step number step.now && taken_fits 0 step.now message }
{
    match kind_of(number, step) {
        Some(kind) => own_of(kind, message),
        None => {
            drop(message);
            None
        }
    }
}
