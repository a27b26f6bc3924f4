// How channels stand for those of the table's world, and for a history.
ghost use Rattle.std.specs.Prelude.{◌≡◌, ◌≢◌, ◌+◌, ◌++◌, ◌∷◌, [], ℕ, true, false, List, Option, Some, map, option_and_then};
ghost use Rattle.std.specs.List.{list_all};
ghost use Rattle.plain_types.specs.declared.history.Event.{Event};
ghost use Rattle.plain_types.specs.declared.history.Sent.{Sent};
ghost use Rattle.plain_types.specs.declared.history.Step.{Step};
ghost use Rattle.plain_types.specs.declared.message.Message.{Message};
ghost use Rattle.plain_types.specs.declared.message.ToClient.{ToClient};
ghost use Rattle.plain_types.specs.declared.message.ToStore.{ToStore};
ghost use Rattle.plain_types.specs.declared.script.Script.{Script};
ghost use Rattle.node_core.specs.Steps.{is_client, is_step_of, is_sent_well, is_to_client};
ghost use Rattle.step_table.specs.ClientState.{Client};
ghost use Rattle.step_table.specs.ClientTakes.{on_told};
ghost use Rattle.step_table.specs.Legal.{Delivered};
ghost use Rattle.step_table.specs.Messages.{plain_sent, plain_message, plainly_told, to_client_fits};
ghost use Rattle.step_table.specs.Row.{Row};
ghost use Rattle.step_table.specs.ServerState.{Server};
ghost use Rattle.step_table.specs.World.{World, row, client, start, at_server, at_client, at_store};
ghost use Rattle.node_channels.specs.Carried.{IsCarried, MayCome, after_event};
ghost use Rattle.node_channels.specs.Channels.{Waiting, IsWhole, queue, with_queue, with_sent, first, no_messages, is_taking, count};
ghost use Rattle.node_channels.specs.Stands.{ChannelsStand, GivesTheSame, HoldsNone, takes, handed, by_server, by_client, by_store};

/// Each step that takes has a channel, and no two steps have the same.
pub fn a_step_has_its_own_channel()
    ensures own { (c : Waiting) → IsWhole c → (step : Step) → is_taking c.clients step ≡ true → (messages : List Message)
        → queue (with_queue c step messages) step ≡ messages }
    ensures others { (c : Waiting) → IsWhole c → (step other : Step) → is_taking c.clients step ≡ true → other ≢ step → (messages : List Message)
        → queue (with_queue c step messages) other ≡ queue c other }
{}

/// Empty channels stand for those of a world before its first step.
pub fn channels_stand_at_first()
    ensures { (script : Script) → ChannelsStand (no_messages script.clients) (start script) }
{}

/// A step takes from channels what it takes in the world that they stand for: there is a message for it in both or in none.
pub fn a_step_takes_what_the_table_takes()
    ensures { (c : Waiting) (w : World) → ChannelsStand c w → (step : Step) → GivesTheSame c step (first (queue c step)) (takes w step) }
{}

/// Where a node sends plainly what its row sends, its channels stand for those of the world after the row.
pub fn what_is_sent_is_what_the_table_sends()
    ensures server { (c : Waiting) (w : World) → ChannelsStand c w → (taken : Option Message) (row : Row Server) → row.state.clients ≡ w.server.clients
        → (sent : List Sent) → list_all (is_sent_well c.clients 0) sent ≡ true → map plain_sent sent ≡ map plain_sent row.sent
        → ChannelsStand (with_sent c 0 sent) (at_server w taken row).world }
    ensures client { (c : Waiting) (w : World) → ChannelsStand c w → (n : ℕ) → is_client c.clients n ≡ true → (taken : Option Message) (row : Row Client)
        → (sent : List Sent) → list_all (is_sent_well c.clients n) sent ≡ true → map plain_sent sent ≡ map plain_sent row.sent
        → ChannelsStand (with_sent c n sent) (at_client n w taken row).world }
    ensures store { (c : Waiting) (w : World) → ChannelsStand c w → (taken : Message) (row : Row (List ToStore))
        → (sent : List Sent) → list_all (is_sent_well c.clients (c.clients + 1)) sent ≡ true → map plain_sent sent ≡ map plain_sent row.sent
        → ChannelsStand (with_sent c (c.clients + 1) sent) (at_store w taken row).world }
{}

/// Where no message waits, no channel of the table holds one.
pub fn empty_channels_are_empty_in_the_table()
    ensures { (c : Waiting) (w : World) → ChannelsStand c w → count c ≡ 0 → HoldsNone w }
{}

/// A step of the table's world is the row of its node, over what the step is handed.
pub fn a_step_of_the_world_is_its_nodes_row()
    ensures server { (w : World) (step : Step) → is_step_of w.server.clients 0 step ≡ true
        → row w step ≡ option_and_then (by_server w.server step) (handed w step) }
    ensures client { (w : World) (n : ℕ) (c : Client) (step : Step) → client w.clients n ≡ Some c → c.number ≡ n → is_client w.server.clients n ≡ true
        → is_step_of w.server.clients n step ≡ true → row w step ≡ option_and_then (by_client c n step) (handed w step) }
    ensures store { (w : World) (step : Step) → is_step_of w.server.clients (w.server.clients + 1) step ≡ true
        → row w step ≡ option_and_then (by_store w.object w.store step) (takes w step) }
{}

/// At first nothing was sent; whatever event comes, each node goes on taking from each other what that one sent, in order.
pub fn what_is_sent_is_delivered()
    ensures first { (clients : ℕ) → IsCarried (no_messages clients) [] }
    ensures kept { (c : Waiting) (history : List Event) (event : Event) → IsCarried c history → MayCome c event
        → IsCarried (after_event c event) (history ++ event ∷ []) }
    ensures delivered { (c : Waiting) (history : List Event) → IsCarried c history → Delivered (c.clients + 1) history }
{}

/// Where two messages are plainly the same, a client makes the same row of both, if the numbers in both can be or in
/// neither. A message that goes to no client is the same itself.
pub fn traces_count_by_their_contexts()
    ensures client { (c : Client) (told other : ToClient) → plainly_told told ≡ plainly_told other → to_client_fits told ≡ to_client_fits other
        → on_told c told ≡ on_told c other }
    ensures others { (m other : Message) → plain_message m ≡ plain_message other → is_to_client other ≡ false → m ≡ other }
{}
