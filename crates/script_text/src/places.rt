// Where lines stand in an input.
ghost use Rattle.std.specs.Prelude.{◌≡◌, ◌≤◌, length};
ghost use Rattle.script_text.specs.Places.{number_at};

use crate::cut::{is_skipped, next_line, text_of_line};

/// The number of the `place`-th line that isn't skipped, from 0; 0 where there are fewer. So much of an input as a
/// script can have is enough.
pub fn number_at(input: &[u8], place: usize) -> u32
    requires { length input.now ≤ 16777217 }
    ensures { result ≡ number_at input.now place }
{
    let mut number = 0;
    let mut ahead = place;
    let mut left = input;
    while let Some((line, rest)) = next_line(left) {
        number += 1;
        left = rest;
        if !is_skipped(text_of_line(line)) {
            if ahead == 0 {
                return number;
            }
            ahead -= 1;
        }
    }
    0
}
