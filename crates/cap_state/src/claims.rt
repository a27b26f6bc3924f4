// What a client says that it holds.
ghost use Rattle.std.specs.Prelude.{◌≡◌, ◌+◌, ◌<◌, ◌≤◌, ◌||◌, ◌==◌, length, vec_len, vec_capacity, if◌then◌else◌};
ghost use Rattle.std.specs.List.{list_any};
ghost use Rattle.cap_state.specs.Table as table;
ghost use Rattle.cap_state.specs.Table.{IsTable};

use crate::holding::bars;
use crate::places::{of_file, put};
use plain_types::Claim;
use snap_ids::Mode;

// All that a client holds is gone.
pub(crate) fn let_all_go(held: &mut Vec<(u8, Claim)>, client: u8)
    requires { IsTable held.old.items }
    ensures table { IsTable held.new.items }
    ensures gone { held.new.items ≡ table.of_others client held.old.items }
    ensures len { vec_len held.new ≤ vec_len held.old }
    ensures capacity { vec_capacity held.new ≡ vec_capacity held.old }
{
    held.retain(|h| h.0 != client);
}

// Whether one of a file's holdings stands in the way of a client's claim.
fn are_in_the_way(holders: &[(u8, Claim)], client: u8, mode: Mode) -> bool
    ensures { result ≡ list_any (table.bars client mode) holders.now }
{
    holders.iter().any(|h| bars(h, client, mode))
}

// A client holds a file that it claims, if it may. There is room for it.
fn take_claim(held: &mut Vec<(u8, Claim)>, client: u8, claim: &Claim)
    requires table { IsTable held.old.items }
    requires room { vec_len held.old < vec_capacity held.old }
    ensures table { IsTable held.new.items }
    ensures held { held.new.items ≡ (if table.is_free client claim.now held.old.items
        then table.with_holding (client, claim.now) held.old.items else held.old.items) }
    ensures len { vec_len held.new ≤ vec_len held.old + 1 }
    ensures capacity { vec_capacity held.new ≡ vec_capacity held.old }
{
    if !are_in_the_way(of_file(held, claim.ino), client, claim.mode) {
        put(held, client, *claim);
    }
}

// A client holds what it claims, as far as it may. There is room for it.
pub(crate) fn take_claims(held: &mut Vec<(u8, Claim)>, client: u8, claims: &[Claim])
    requires table { IsTable held.old.items }
    requires room { vec_len held.old + length claims.now ≤ vec_capacity held.old }
    ensures table { IsTable held.new.items }
    ensures held { held.new.items ≡ table.claimed client claims.now held.old.items }
{
    let mut left = claims;
    while let Some((claim, rest)) = left.split_first() {
        take_claim(held, client, claim);
        left = rest;
    }
}
