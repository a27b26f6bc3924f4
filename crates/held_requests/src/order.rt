// Keys in the order of arrival.
ghost use Rattle.std.specs.Prelude.{◌≡◌, ◌∷◌, ◌<◌, ◌==◌, vec_len};
ghost use Rattle.std.specs.Vec.{vec_capacity};
ghost use Rattle.held_requests.specs.Keys.{place_of, cut_first};

// How many keys stand before a key, all of them where it isn't there.
fn place_of(order: &[usize], key: usize) -> usize
    ensures { result ≡ place_of key order.now }
{
    let mut at = 0;
    for next in order {
        if *next == key {
            return at;
        }
        at += 1;
    }
    at
}

/// Puts a key before all others, where there is room.
pub(crate) fn put_first(order: &mut Vec<usize>, key: usize)
    requires { vec_len order.old < vec_capacity order.old }
    ensures { order.new.items ≡ key ∷ order.old.items }
{
    order.insert(0, key).unwrap();
}

/// Takes a key out, where it is there. The keys behind it move up.
pub(crate) fn cut(order: &mut Vec<usize>, key: usize)
    ensures { order.new.items ≡ cut_first (λ next. next == key) order.old.items }
{
    let at = place_of(order, key);
    if at < order.len() {
        order.remove(at);
    }
}
