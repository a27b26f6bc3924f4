// The stamps of what the server sends.
ghost use Rattle.std.specs.Prelude.{◌≡◌, ◌++◌, ◌∷◌, [], ℕ, List, map};
ghost use Rattle.plain_types.specs.declared.history.Event.{Event};
ghost use Rattle.plain_types.specs.declared.script.Script.{Script};
ghost use Rattle.step_table.specs.Legal.{Legal};
ghost use Rattle.step_table.specs.World.{journal};
ghost use Rattle.run_laws.specs.Links.{EachClient};
ghost use Rattle.run_laws.specs.Moments.{world_after};
ghost use Rattle.run_laws.specs.Stamps.{told_in, sent_to, entry_of, NeverFall, AllStampsOf, HearsRising, WillHearRising, HearsOwn};

/// What the server tells a client is told in the order in which it was made: the numbers of entries that the messages are
/// stamped with never fall.
pub fn stamps_never_fall()
    ensures { (script : Script) (history : List Event) → Legal history script → (client : ℕ)
        → NeverFall 0 (map entry_of (sent_to client history)) }
{}

/// A message goes when the entries that it knows of are durable, not before: its stamp is one of the journal then.
pub fn what_is_told_is_durable()
    ensures { (script : Script) (history : List Event) (event : Event) → Legal (history ++ event ∷ []) script → event.node ≡ 0
        → AllStampsOf (journal (world_after script (history ++ event ∷ []))) (told_in event.sent) }
{}

/// What a client hears never falls back: from the entry stamp of the last message that it took on, the stamps of what is on
/// its way never fall, and each is one of the durable entries: it counts no more than there are, and names the last snapshot
/// that those made. So what it has heard is durable itself. The last stamp that it heard by its own connection isn't above
/// the last one that it heard at all.
pub fn what_a_client_hears_rises()
    ensures { (script : Script) (history : List Event) → Legal history script → EachClient HearsRising (world_after script history) }
{}

/// What the server has made for a client and hasn't sent is stamped behind what it has sent: from the last stamp that the
/// client heard on, the stamps of what is on its way and then of what waits never fall, none counts more entries than there
/// are, and each names the last snapshot that its entries made.
pub fn what_waits_is_stamped_behind()
    ensures { (script : Script) (history : List Event) → Legal history script → EachClient WillHearRising (world_after script history) }
{}

/// A client that isn't frozen heard the last message by its own connection: from its Welcome on no message of another
/// connection comes, and what comes without a connection, of a restart, freezes it. So its changes of bytes, which it makes
/// when it isn't frozen, know of all the entries that it has heard of. It is said for as long as fewer than 2^62 snapshots were
/// made by the stamp of that message: a client drops what names an id that can't be.
pub fn who_is_not_frozen_hears_its_own_connection()
    ensures { (script : Script) (history : List Event) → Legal history script → EachClient HearsOwn (world_after script history) }
{}
