// Whose requests wait at the server.
ghost use Rattle.std.specs.Prelude.{◌≡◌, ◌≤◌, ◌++◌, ◌∷◌, ℕ, List, Some, false};
ghost use Rattle.std.specs.List.{list_any};
ghost use Rattle.plain_types.specs.declared.history.Event.{Event};
ghost use Rattle.plain_types.specs.declared.message.ToServer.{ToServer};
ghost use Rattle.plain_types.specs.declared.message.ToServer.TheVariants.{Ask};
ghost use Rattle.plain_types.specs.declared.request.Request.{Request};
ghost use Rattle.plain_types.specs.declared.script.Script.{Script};
ghost use Rattle.step_table.specs.Acts.{of_client};
ghost use Rattle.step_table.specs.ClientState.{Client};
ghost use Rattle.step_table.specs.Legal.{Legal};
ghost use Rattle.step_table.specs.World.{client};
ghost use Rattle.run_laws.specs.Links.{mine};
ghost use Rattle.run_laws.specs.Moments.{world_after};
ghost use Rattle.run_laws.specs.Requests.{count};

use run_laws::what_is_asked_is_open;

/// No client waits twice: of each one request at most is held or deferred at the server.
pub fn no_client_waits_twice()
    ensures { (script : Script) (history : List Event) → Legal history script
        → (n : ℕ) (c : Client) → client (world_after script history).clients n ≡ Some c
        → count n ((world_after script history).server.held ++ (world_after script history).server.deferred) ≤ 1 }
{
    what_is_asked_is_open();
}

/// Who asks doesn't wait: where a request is the next message of a client to the server, no request of that client is held
/// or deferred there.
pub fn who_asks_does_not_wait()
    ensures { (script : Script) (history : List Event) → Legal history script
        → (n : ℕ) (c : Client) → client (world_after script history).clients n ≡ Some c
        → (conn tid : ℕ) (asked : Request) (rest : List ToServer) → mine n (world_after script history).up ≡ Ask conn tid asked ∷ rest
        → list_any (of_client n) ((world_after script history).server.held ++ (world_after script history).server.deferred) ≡ false }
{
    what_is_asked_is_open();
}
