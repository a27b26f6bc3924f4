// The flushes of the clients.
ghost use Rattle.std.specs.Prelude.{List};
ghost use Rattle.plain_types.specs.declared.history.Event.{Event};
ghost use Rattle.plain_types.specs.declared.script.Script.{Script};
ghost use Rattle.step_table.specs.Legal.{Legal};
ghost use Rattle.run_laws.specs.Moments.{world_after};
ghost use Rattle.run_laws.specs.Links.{EachClient};
ghost use Rattle.run_laws.specs.FlushNumbers.{NoGap, Kept, Acknowledged, AsSent, OnTheWay, ComesNext, InTurn, IsTaken};

/// In the journal the flushes of each client are numbered 1, 2, .. without a gap, none twice, up to a number that the client
/// has given.
pub fn flush_numbers_have_no_gap()
    ensures { (script : Script) (history : List Event) → Legal history script → EachClient NoGap (world_after script history) }
{}

/// What a client keeps no more is durable: all flushes behind the last durable one are among those that it keeps, one by one
/// up to the last that it sent. And what is acknowledged on the way to a client is durable.
pub fn what_is_acknowledged_is_durable()
    ensures kept { (script : Script) (history : List Event) → Legal history script → EachClient Kept (world_after script history) }
    ensures acknowledged { (script : Script) (history : List Event) → Legal history script → EachClient Acknowledged (world_after script history) }
{}

/// A flush is written as it was sent: where the journal has a flush that the client keeps, it has it with its fields.
pub fn a_flush_is_written_as_it_was_sent()
    ensures { (script : Script) (history : List Event) → Legal history script → EachClient AsSent (world_after script history) }
{}

/// Where a client is connected, the flushes of that connection that are on their way are those that the client keeps behind
/// the last one that the server took. So one that comes next has the next number: outside a Connect the server is brought no
/// flush that it knows, and none is left out.
pub fn a_flush_comes_once_a_connection()
    ensures way { (script : Script) (history : List Event) → Legal history script → EachClient OnTheWay (world_after script history) }
    ensures next { (script : Script) (history : List Event) → Legal history script → EachClient ComesNext (world_after script history) }
{}

/// The server refuses no flush for its file or its numbers: the file is one that the server knows, and the numbers can be.
pub fn no_flush_is_refused()
    ensures { (script : Script) (history : List Event) → Legal history script → EachClient IsTaken (world_after script history) }
{}

/// Acknowledgements on the way to a client, of its connection, are of one flush after the other, a Welcome saying up to where;
/// and where the server has this connection they end at the last flush that it took.
pub fn flushes_are_acknowledged_in_turn()
    ensures { (script : Script) (history : List Event) → Legal history script → EachClient InTurn (world_after script history) }
{}
