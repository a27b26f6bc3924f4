// What comes of messages that aren't taken.
ghost use Rattle.std.specs.Prelude.{◌≡◌, false};
ghost use Rattle.plain_types.specs.declared.message.FromStore.{FromStore};
ghost use Rattle.plain_types.specs.declared.message.ToClient.{ToClient};
ghost use Rattle.step_table.specs.ClientState.{Client, stays};
ghost use Rattle.step_table.specs.ClientTakes.{having_heard, on_told, on_stored};
ghost use Rattle.client_takes.specs.Takes.{takes_told, takes_stored};

/// A message of the server that isn't taken changes nothing but what was heard; one of the store changes nothing.
pub fn dropped_messages_change_nothing()
    ensures told { (c : Client) (told : ToClient) → takes_told c told ≡ false → on_told c told ≡ stays (having_heard c told) }
    ensures stored { (c : Client) (said : FromStore) → takes_stored c said ≡ false → on_stored c said ≡ stays c }
{}
