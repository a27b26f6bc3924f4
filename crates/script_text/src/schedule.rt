// What a line of a schedule says.
ghost use Rattle.std.specs.Prelude.{◌≡◌, ◌+◌, ◌≤◌};
ghost use Rattle.script_text.specs.Lines.{words_of};
ghost use Rattle.script_text.specs.Planned.{client_of, bare_plan, short_plan, node_of, client_takes, taking, long_plan, planned};

use crate::cut::{Words, cut_words};
use crate::number::{small_of, within};
use plain_types::{Planned, Step};

// The client that a word spells.
pub fn client_of(clients: u8, word: &[u8]) -> Option<u8>
    ensures { result ≡ client_of clients word.now }
{
    within(1, u64::from(clients), word).map(|n| n as u8)
}

// What a verb says alone.
fn bare_plan(verb: &[u8]) -> Option<Planned>
    ensures { result ≡ bare_plan verb.now }
{
    if verb == b"commit".as_slice() {
        Some(Planned::Make(Step::Commit))
    } else if verb == b"tend".as_slice() {
        Some(Planned::Make(Step::Tend))
    } else if verb == b"drain".as_slice() {
        Some(Planned::Drain)
    } else if verb == b"all".as_slice() {
        Some(Planned::All)
    } else {
        None
    }
}

// What a verb says with one word.
fn short_plan(clients: u8, verb: &[u8], word: &[u8]) -> Option<Planned>
    ensures { result ≡ short_plan clients verb.now word.now }
{
    if verb == b"op".as_slice() {
        client_of(clients, word).map(|client| Planned::Make(Step::Op(client)))
    } else if verb == b"flush".as_slice() {
        client_of(clients, word).map(|client| Planned::Make(Step::Flush(client)))
    } else if verb == b"restart".as_slice() {
        small_of(word).map(|kept| Planned::Make(Step::Restart(kept)))
    } else {
        None
    }
}

// The node that a word names: a client, or `node` where the word is `name`.
fn node_of(clients: u8, name: &[u8], node: u8, word: &[u8]) -> Option<u8>
    ensures { result ≡ node_of clients name.now node word.now }
{
    if word == name {
        Some(node)
    } else {
        client_of(clients, word)
    }
}

// What a client takes, from the server or from the store.
fn client_takes(client: u8, source: &[u8]) -> Option<Step>
    ensures { result ≡ client_takes client source.now }
{
    if source == b"server".as_slice() {
        Some(Step::ClientFromServer(client))
    } else if source == b"store".as_slice() {
        Some(Step::ClientFromStore(client))
    } else {
        None
    }
}

// Who takes a message, and from whom.
fn taking(clients: u8, taker: &[u8], source: &[u8]) -> Option<Step>
    requires { clients ≤ 8 }
    ensures { result ≡ taking clients taker.now source.now }
{
    if taker == b"server".as_slice() {
        node_of(clients, b"store", clients + 1, source).map(Step::ServerTakes)
    } else if taker == b"store".as_slice() {
        node_of(clients, b"server", 0, source).map(Step::StoreTakes)
    } else {
        client_takes(client_of(clients, taker)?, source)
    }
}

// What a verb says with two words.
fn long_plan(clients: u8, verb: &[u8], a: &[u8], b: &[u8]) -> Option<Planned>
    requires { clients ≤ 8 }
    ensures { result ≡ long_plan clients verb.now a.now b.now }
{
    if verb == b"take".as_slice() {
        taking(clients, a, b).map(Planned::Make)
    } else if verb == b"ops".as_slice() {
        let words = client_of(clients, a).zip(small_of(b));
        words.map(|(client, times)| Planned::Ops { client, times })
    } else {
        None
    }
}

// What a line of the schedule says.
pub fn planned(clients: u8, text: &[u8]) -> Option<Planned>
    requires { clients ≤ 8 }
    ensures { result ≡ planned clients (words_of text.now) }
{
    match cut_words(text) {
        Words::One(verb) => bare_plan(verb),
        Words::Two(verb, word) => short_plan(clients, verb, word),
        Words::Three(verb, a, b) => long_plan(clients, verb, a, b),
        Words::Four(..) | Words::Many => None,
    }
}
