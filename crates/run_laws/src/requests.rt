// The requests of the clients.
ghost use Rattle.std.specs.Prelude.{List};
ghost use Rattle.plain_types.specs.declared.history.Event.{Event};
ghost use Rattle.plain_types.specs.declared.script.Script.{Script};
ghost use Rattle.step_table.specs.Legal.{Legal};
ghost use Rattle.run_laws.specs.Moments.{world_after};
ghost use Rattle.run_laws.specs.Links.{EachClient};
ghost use Rattle.run_laws.specs.Requests.{Requested, Once, Repeats};

/// At each moment whatever is asked by a client, wherever it stands, is the request that the client has open, and it stands
/// at one place at most: on the way to the server, at the server, or answered on the way back.
pub fn what_is_asked_is_open()
    ensures { (script : Script) (history : List Event) → Legal history script → EachClient Requested (world_after script history) }
{}

/// A request has one effect at most: the numbers of a client's effects rise along the journal. One that had its effect is
/// answered again with the answer of that effect, whenever it is treated once more.
pub fn a_request_has_one_effect()
    ensures once { (script : Script) (history : List Event) → Legal history script → EachClient Once (world_after script history) }
    ensures repeated { (script : Script) (history : List Event) → Legal history script → EachClient Repeats (world_after script history) }
{}
