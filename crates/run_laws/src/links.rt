// The links between the clients and the server.
ghost use Rattle.std.specs.Prelude.{◌≡◌, ◌≤◌, ◌++◌, ℕ, List, Some};
ghost use Rattle.plain_types.specs.declared.history.Event.{Event};
ghost use Rattle.plain_types.specs.declared.script.Script.{Script};
ghost use Rattle.step_table.specs.ClientState.{Client};
ghost use Rattle.step_table.specs.Legal.{Legal};
ghost use Rattle.step_table.specs.World.{client};
ghost use Rattle.run_laws.specs.Moments.{world_after};
ghost use Rattle.run_laws.specs.Links.{EachClient, Linked, Numbered, Heard};

/// At each moment each client's link to the server is in order: it flows, or its last Connect is on the way and all that
/// comes is old, or the Welcome is on the way.
pub fn links_are_in_order()
    ensures { (script : Script) (history : List Event) → Legal history script → EachClient Linked (world_after script history) }
{}

/// Connection numbers never fall: on the way to a client they never do, and none is above the client's own; the server
/// refuses no Connect for its number; and a client's own number is never lower later.
pub fn connection_numbers_never_fall()
    ensures down { (script : Script) (history : List Event) → Legal history script → EachClient Numbered (world_after script history) }
    ensures up { (script : Script) (history : List Event) → Legal history script → EachClient Heard (world_after script history) }
    ensures own { (script : Script) (history later : List Event) → Legal (history ++ later) script → (n : ℕ) (c d : Client)
        → client (world_after script history).clients n ≡ Some c → client (world_after script (history ++ later)).clients n ≡ Some d
        → c.conn ≤ d.conn }
{}
