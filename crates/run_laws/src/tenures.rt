// Which files are held, and by whom.
ghost use Rattle.std.specs.Prelude.{List};
ghost use Rattle.plain_types.specs.declared.history.Event.{Event};
ghost use Rattle.plain_types.specs.declared.script.Script.{Script};
ghost use Rattle.step_table.specs.Legal.{Legal};
ghost use Rattle.run_laws.specs.Moments.{world_after};
ghost use Rattle.run_laws.specs.Links.{EachClient};
ghost use Rattle.run_laws.specs.LetGo.{AsksOfMade, TableCoversGiven, GivenAfterRelease, LetGoIsRemembered, LetGoIsFree, DroppedIsFree, GrantIsAsked};
ghost use Rattle.run_laws.specs.Tenures.{HeldIsMade, HeldOnce, GivenIsMade, AllHoldMade, EachOnce, AllAskMade, HeldMayWait, TableCovers, HeldAfterRelease, SomeIsRecalled, ReadersKeepNothing, SaysWriter, WriterIsKnown, WaitsUnwritten, FlushedIsWritten};

/// What a client holds, and what a message on its way to it gives it, is a file that the durable entries made: no restart
/// unmakes a file that is held. A client holds a file once.
pub fn what_is_held_was_made()
    ensures held { (script : Script) (history : List Event) → Legal history script → EachClient HeldIsMade (world_after script history) }
    ensures once { (script : Script) (history : List Event) → Legal history script → EachClient HeldOnce (world_after script history) }
    ensures given { (script : Script) (history : List Event) → Legal history script → EachClient GivenIsMade (world_after script history) }
{}

/// What a client has open is a file that the server's entries made, and so is the file for which it asks a capability: no
/// request for one is dropped since the server doesn't know the file.
pub fn what_is_asked_for_was_made()
    ensures { (script : Script) (history : List Event) → Legal history script → EachClient AsksOfMade (world_after script history) }
{}

/// Who holds a file in the server's table is connected, and the file is one that the server's entries made; the table has a
/// client and a file once. The same is so of the requests that the server holds or defers: who asks is connected, and a
/// capability is asked for a file that was made.
pub fn the_table_is_of_connected_clients()
    ensures holders { (script : Script) (history : List Event) → Legal history script
        → AllHoldMade (world_after script history).server.entries (world_after script history).server.current (world_after script history).server.holders }
    ensures once { (script : Script) (history : List Event) → Legal history script → EachOnce (world_after script history).server.holders }
    ensures held { (script : Script) (history : List Event) → Legal history script
        → AllAskMade (world_after script history).server.entries (world_after script history).server.current (world_after script history).server.held }
    ensures deferred { (script : Script) (history : List Event) → Legal history script
        → AllAskMade (world_after script history).server.entries (world_after script history).server.current (world_after script history).server.deferred }
{}

/// Where all clients are connected, the server holds requests for capabilities, `cat`, `stat` and barriers alone: all others
/// are answered or deferred when they are taken. A barrier that is held has a number above the last one that was opened.
pub fn what_waits_may_wait()
    ensures { (script : Script) (history : List Event) → Legal history script → EachClient HeldMayWait (world_after script history) }
{}

/// The server knows of what is held: where it has a connection of a client, its table has that client with each file that
/// the client holds, and with each that a message of the client's connection grants it, sent or not, for Write where the
/// file is held or granted for Write.
pub fn the_table_covers_what_is_held()
    ensures { (script : Script) (history : List Event) → Legal history script → EachClient TableCovers (world_after script history) }
{}

/// The server knows of what it gives: where it has a connection of a client, its table has that client with each file that a
/// message of the client's connection, sent or not, gives it: one that is granted, or one that a `cat` or a `stat` finds for a
/// reader that hasn't let it go since it asked.
pub fn the_table_covers_what_is_given()
    ensures { (script : Script) (history : List Event) → Legal history script → EachClient TableCoversGiven (world_after script history) }
{}

/// A client keeps nothing back of a file that it holds for Read: no piece of it waits or is at the store unacknowledged, and
/// no mark of it waits for the server.
pub fn a_reader_keeps_nothing_back()
    ensures { (script : Script) (history : List Event) → Legal history script → EachClient ReadersKeepNothing (world_after script history) }
{}

/// Who asks is told whether it writes: an answer on its way to a client, of its connection, that finds a live file says that
/// the client holds the file for Write exactly where it does, unless the client let the file go since it sent its request.
pub fn an_answer_says_whether_its_client_writes()
    ensures { (script : Script) (history : List Event) → Legal history script → EachClient SaysWriter (world_after script history) }
{}

/// The server takes nobody for a writer without reason: where it has a connection of a client, and its table has the client
/// with a file for Write, the client holds the file for Write, or a release of the file is on the way in that connection, or
/// the client's open request is for the file for Write and is granted: it is neither on its way to the server nor kept there.
pub fn who_writes_in_the_table_is_known()
    ensures { (script : Script) (history : List Event) → Legal history script → EachClient WriterIsKnown (world_after script history) }
{}

/// Who waits to write a file doesn't write it yet: where the server has a client's present connection and holds the client's
/// request for a file for Write, its table doesn't have the client as the file's writer.
pub fn who_waits_to_write_does_not_write_yet()
    ensures { (script : Script) (history : List Event) → Legal history script → EachClient WaitsUnwritten (world_after script history) }
{}

/// Who flushes a file is its writer for the server: where it has a connection of a client, each flush on the way in that
/// connection, a release too, is of a file that its table has the client hold for Write. Behind a release of a file no flush
/// of the file is on the way there.
pub fn what_is_flushed_is_written_in_the_table()
    ensures { (script : Script) (history : List Event) → Legal history script → EachClient FlushedIsWritten (world_after script history) }
{}

/// A client holds a file again only when its release is durable: where it holds a file, all its earlier releases of the file
/// that aren't acknowledged are among the durable entries.
pub fn a_file_is_held_again_after_its_release()
    ensures { (script : Script) (history : List Event) → Legal history script → EachClient HeldAfterRelease (world_after script history) }
{}

/// A file is given to a client again only when its release is durable: where a message that the server has sent gives a client
/// a file, by the client's connection, all its earlier releases of the file that aren't acknowledged are among the durable
/// entries.
pub fn a_file_is_given_again_after_its_release()
    ensures { (script : Script) (history : List Event) → Legal history script → EachClient GivenAfterRelease (world_after script history) }
{}

/// A client remembers what it lets go while it waits for an answer: each file that is let go by a message on its way, of its
/// connection and behind the last sending of its open request, is among those that the client let go since it sent that
/// request. Where the file is released, the request asks for no capability of it.
pub fn what_is_let_go_is_remembered()
    ensures { (script : Script) (history : List Event) → Legal history script → EachClient LetGoIsRemembered (world_after script history) }
{}

/// What a client let go since it sent its open request it doesn't hold. And it asks for what it hasn't got: a capability to
/// read a file that it neither holds nor has let go since, or one to write a file that it doesn't hold for Write.
pub fn what_was_let_go_is_not_held()
    ensures { (script : Script) (history : List Event) → Legal history script → EachClient LetGoIsFree (world_after script history) }
{}

/// Where the server's table has a client as a reader of a file, and a message in the server's connection lets that file go,
/// the client doesn't hold the file, and no message of its connection, sent or not, gives it. So the server may take the
/// file from it.
pub fn what_a_reader_lets_go_is_free()
    ensures { (script : Script) (history : List Event) → Legal history script → EachClient DroppedIsFree (world_after script history) }
{}

/// A Grant on its way to a client, of its connection, sent or not, is of the file and the mode that the client's open request
/// asks for.
pub fn a_grant_is_what_was_asked_for()
    ensures { (script : Script) (history : List Event) → Legal history script → EachClient GrantIsAsked (world_after script history) }
{}

/// Nobody waits for a file for nothing: where all clients are connected and the server holds a request for a capability, a
/// `cat` or a `stat`, some holder has been asked to give its file back.
pub fn who_waits_for_a_file_has_it_recalled()
    ensures { (script : Script) (history : List Event) → Legal history script → EachClient SomeIsRecalled (world_after script history) }
{}
