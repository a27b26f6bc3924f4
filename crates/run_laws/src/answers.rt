// What the journal and the answers on the way say of the requests that are made.
ghost use Rattle.std.specs.Prelude.{List};
ghost use Rattle.plain_types.specs.declared.history.Event.{Event};
ghost use Rattle.plain_types.specs.declared.script.Script.{Script};
ghost use Rattle.step_table.specs.Legal.{Legal};
ghost use Rattle.run_laws.specs.Moments.{world_after};
ghost use Rattle.run_laws.specs.Links.{EachClient};
ghost use Rattle.run_laws.specs.Answered.{NotAbove, Undurable, AsAsked, AsKept};
ghost use Rattle.run_laws.specs.OpenHandles.{HasOpen};
ghost use Rattle.run_laws.specs.OpenLines.{OfItsLine};
ghost use Rattle.run_laws.specs.Told.{AllTold};

/// At each moment no effect of a client has a number above the last one that the client gave.
pub fn effects_have_numbers_that_were_given()
    ensures { (script : Script) (history : List Event) → Legal history script → EachClient NotAbove (world_after script history) }
{}

/// An effect that isn't durable is of a request that is still open: its client hasn't taken an answer to it. So of each
/// client there is one such effect at most.
pub fn an_effect_that_is_not_durable_is_of_the_open_request()
    ensures { (script : Script) (history : List Event) → Legal history script → EachClient Undurable (world_after script history) }
{}

/// Where a client's open request has its effect, the entry says what that request can make: a file opened under the number
/// and in the way that it asks for, a handle closed that it names, a snapshot made by a `mkdir` and removed by an `rmdir`.
pub fn an_effect_is_of_its_request()
    ensures { (script : Script) (history : List Event) → Legal history script → EachClient AsAsked (world_after script history) }
{}

/// A reply on the way to a client to its open request is the answer that the journal keeps for that request, and its stamp
/// counts the entry of the effect. Where the request has no effect, the reply says no success, one to a change is a refusal,
/// and a request for a capability has no reply: it is granted. So a client never hears of a success that the journal doesn't
/// have.
pub fn a_reply_is_the_kept_answer()
    ensures { (script : Script) (history : List Event) → Legal history script → EachClient AsKept (world_after script history) }
{}

/// An open request to write a file belongs to a `write` or a `truncate` of that file through a writable handle that its
/// client has open, and an open request to read one to a `read` through a handle of it.
pub fn a_capability_is_asked_for_by_a_line()
    ensures { (script : Script) (history : List Event) → Legal history script → EachClient OfItsLine (world_after script history) }
{}

/// What a client has open is what its effects in the journal leave open, in their order: files opened and handles closed, but
/// for the effect of its open request, to which it hasn't taken the answer.
pub fn a_client_has_open_what_the_journal_says()
    ensures { (script : Script) (history : List Event) → Legal history script → EachClient HasOpen (world_after script history) }
{}

/// How much a client was told: the replies to it that say `changed` are as many as its effects in durable entries and its
/// changes of bytes together, less one where its open request has an effect that is durable: the answer to that it hasn't
/// taken. So it was told of each of its changes once, and of none that can still be lost.
pub fn a_client_is_told_of_each_change_once()
    ensures { (script : Script) (history : List Event) → Legal history script → EachClient (AllTold history) (world_after script history) }
{}
