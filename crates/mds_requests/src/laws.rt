// What the server's acts leave of its requests, whatever they are.
ghost use Rattle.std.specs.Prelude.{List};
ghost use Rattle.step_table.specs.Acts.{Act, acts};
ghost use Rattle.step_table.specs.ServerState.{Server};
ghost use Rattle.mds_state.specs.Fits.{AllPast, OneEach, WaitingFit, WaitOnce};
ghost use Rattle.mds_requests.specs.Ready.{at_server, HandFits, IsReady};

/// Requests that fit do after any acts, in hand and waiting: acts only move requests, entries are only added behind the
/// others, and a file that was made stays made.
pub fn acts_leave_requests_fit()
    ensures waiting { (s : Server) (list : List Act) → HandFits s → WaitingFit s → WaitingFit (acts s list) }
    ensures hand { (s : Server) (list : List Act) → HandFits s → WaitingFit s → HandFits (acts s list) }
{}

/// If no client has two requests at the server, none has after any acts. Then none waits twice.
pub fn acts_leave_clients_one_request()
    ensures each { (s : Server) (list : List Act) → OneEach (at_server s) → OneEach (at_server (acts s list)) }
    ensures waiting { (s : Server) → OneEach (at_server s) → WaitOnce s }
    ensures held { (s : Server) → WaitOnce s → OneEach s.held }
{}

/// If after some acts each flush came when all ids that it names were made, so it was before them.
pub fn flushes_were_past()
    ensures { (s : Server) (list : List Act) → AllPast (acts s list).entries → AllPast s.entries }
{}

/// So the held requests can be decided anew after any acts: where the requests at the server fit, no client has two of them,
/// and each flush came when all ids that it names were made.
pub fn acts_leave_a_server_ready()
    ensures { (s later : Server) (list : List Act) → HandFits s → WaitingFit s → OneEach (at_server s) → AllPast later.entries
        → IsReady (acts s list) later }
{}
