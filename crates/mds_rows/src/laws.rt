// What the rows keep of what they want.
ghost use Rattle.std.specs.Prelude.{◌≡◌, ◌≤◌, ℕ, None};
ghost use Rattle.plain_types.specs.declared.message.ToServer.{ToServer};
ghost use Rattle.step_table.specs.ServerRows.{committed, on_report, on_take, on_tend, restarted};
ghost use Rattle.step_table.specs.ServerState.{Server};
ghost use Rattle.mds_state.specs.Fits.{WaitingFit};
ghost use Rattle.mds_rows.specs.Ready.{after};

/// Where nothing is in hand, and the requests that wait are of clients and for files that were made, those that wait after
/// a row are so too. After a restart none waits.
pub fn rows_leave_requests_fit()
    ensures take { (s : Server) (client : ℕ) (message : ToServer) → s.hand ≡ None → 1 ≤ client → client ≤ s.clients
        → WaitingFit s → WaitingFit (on_take s client message).state }
    ensures report { (s : Server) (message : ToServer) → s.hand ≡ None → WaitingFit s → WaitingFit (on_report s message).state }
    ensures tend { (s : Server) → s.hand ≡ None → WaitingFit s → WaitingFit (after s (on_tend s)) }
    ensures commit { (s : Server) → WaitingFit s → WaitingFit (committed s).state }
    ensures restart { (s : Server) (upto : ℕ) → WaitingFit (restarted s upto).state }
{}
