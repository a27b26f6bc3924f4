// The numbers in what is told and said along a history.
ghost use Rattle.std.specs.Prelude.{◌≤◌, List};
ghost use Rattle.snap_ids.specs.declared.id.TheConstants.{NOSNAP};
ghost use Rattle.plain_types.specs.declared.history.Event.{Event};
ghost use Rattle.plain_types.specs.declared.script.Script.{Script};
ghost use Rattle.plain_journal.specs.Table.{next_snap};
ghost use Rattle.step_table.specs.Legal.{Legal};
ghost use Rattle.step_table.specs.World.{journal};
ghost use Rattle.run_laws.specs.Moments.{world_after};
ghost use Rattle.run_laws.specs.Links.{EachClient};
ghost use Rattle.id_laws.specs.Fits.{AllCanBeTaken, MailCanBeTaken, SaysWhatCanBeTaken};

/// No message of the server is dropped for its numbers, while fewer snapshots were prepared than there are ids for: its stamp,
/// the contexts and the ids in it are below the id that stands for what is live, and the sizes are such that a file can have.
/// So it is of what is sent, and of what waits in the server's mail until the entries are durable.
pub fn what_is_told_can_be_taken()
    ensures sent { (script : Script) (history : List Event) → Legal history script
        → next_snap (journal (world_after script history)) ≤ NOSNAP.0 → AllCanBeTaken (world_after script history).down }
    ensures waits { (script : Script) (history : List Event) → Legal history script
        → next_snap (world_after script history).server.entries ≤ NOSNAP.0 → MailCanBeTaken (world_after script history).server.mail }
{}

/// The server drops no message of a client for its numbers, under the same premise: the flushes, and the claims and flushes
/// that a client brings along as it connects, name ids below the one that stands for what is live and sizes that a file can
/// have.
pub fn what_a_client_says_can_be_taken()
    ensures { (script : Script) (history : List Event) → Legal history script
        → next_snap (journal (world_after script history)) ≤ NOSNAP.0 → EachClient SaysWhatCanBeTaken (world_after script history) }
{}
