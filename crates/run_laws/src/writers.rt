// Who holds a file, by what the clients themselves count.
ghost use Rattle.std.specs.Prelude.{List};
ghost use Rattle.plain_types.specs.declared.history.Event.{Event};
ghost use Rattle.plain_types.specs.declared.script.Script.{Script};
ghost use Rattle.step_table.specs.Legal.{Legal};
ghost use Rattle.run_laws.specs.Moments.{world_after};
ghost use Rattle.run_laws.specs.Holding.{OneClientWrites, WriterIsAlone, ReleasedIsFree};

/// At each moment at most one client holds a file for Write, and then no other client holds it at all, among the files that
/// the clients themselves hold: from the moment at which a client takes what gives it the file to the one at which it sends
/// the release. Neither restarts nor broken links make two writers of a file, nor a reader beside a writer.
pub fn a_file_has_one_writer_among_the_clients()
    ensures { (script : Script) (history : List Event) → Legal history script → OneClientWrites (world_after script history) }
{}

/// At each moment, while the server's table has a client as the writer of a file, no other client holds the file, and none
/// is being given it by a message of its connection, sent or not. So it is from the grant to the moment at which the server
/// takes the release, also when the writer itself has let the file go already, and while other clients aren't connected.
pub fn a_writer_in_the_table_is_alone()
    ensures { (script : Script) (history : List Event) → Legal history script → WriterIsAlone (world_after script history) }
{}

/// Nobody holds what is being released: while a release of a file is on the way in the server's connection of a client, no
/// client holds the file, the one that released it neither, and none is being given it by a message of its connection, sent
/// or not.
pub fn nobody_holds_what_is_being_released()
    ensures { (script : Script) (history : List Event) → Legal history script → ReleasedIsFree (world_after script history) }
{}
