// Cutting an input into lines, and a line into words, without memory.
ghost use Rattle.std.specs.Prelude.{◌≡◌, ◌==◌, ◌∷◌, [], ◌+◌, ◌<◌, ◌≤◌, length, position, IfSome, MatchOption};
ghost use Rattle.script_text.specs.Lines.{lines_of, text_of_line, is_skipped, words_of};
ghost use Rattle.script_text.specs.Cut.{AreWords};

// Where the first line feed stands.
fn first_line_feed(bytes: &[u8]) -> Option<usize>
    ensures found { result ≡ position (λ b. b == 10) bytes.now }
    ensures within { IfSome result (λ i. i < length bytes.now) }
{
    bytes.iter().position(|b| *b == b'\n')
}

// The first line with its line feed, and what follows it. There is none where there are no bytes.
pub fn next_line(bytes: &[u8]) -> Option<(&[u8], &[u8])>
    ensures cut { MatchOption result (lines_of bytes.now ≡ []) (λ cut.
        lines_of bytes.now ≡ cut.0.now ∷ lines_of cut.1.now) }
    ensures whole { IfSome result (λ cut. length cut.0.now + length cut.1.now ≡ length bytes.now) }
    ensures some { IfSome result (λ cut. 0 < length cut.0.now) }
{
    if bytes.is_empty() {
        return None;
    }
    match first_line_feed(bytes) {
        None => Some((bytes, &[])),
        Some(i) => Some((&bytes[..i + 1], &bytes[i + 1..])),
    }
}

// A line's text: without its line feed and one carriage return before that.
pub fn text_of_line(line: &[u8]) -> &[u8]
    ensures text { result.now ≡ text_of_line line.now }
    ensures shorter { length result.now ≤ length line.now }
{
    let Some(text) = line.strip_suffix(b"\n".as_slice()) else {
        return line;
    };
    match text.strip_suffix(b"\r".as_slice()) {
        Some(text) => text,
        None => text,
    }
}

// Whether a line is empty or begins with `#`.
pub fn is_skipped(text: &[u8]) -> bool
    ensures { result ≡ is_skipped text.now }
{
    match text.split_first() {
        None => true,
        Some((first, _)) => *first == b'#',
    }
}

// Where the first space stands.
fn first_space(text: &[u8]) -> Option<usize>
    ensures found { result ≡ position (λ b. b == 32) text.now }
    ensures within { IfSome result (λ i. i < length text.now) }
{
    text.iter().position(|b| *b == b' ')
}

// The first word of a line, and what follows the space behind it, if one stands there.
pub fn first_word(text: &[u8]) -> (&[u8], Option<&[u8]>)
    ensures { MatchOption result.1 (words_of text.now ≡ result.0.now ∷ []) (λ rest.
        words_of text.now ≡ result.0.now ∷ words_of rest.now) }
{
    match first_space(text) {
        None => (text, None),
        Some(i) => (&text[..i], Some(&text[i + 1..])),
    }
}

// The words of a line, where there are few.
#[derive(Clone, Copy)]
pub enum Words<'a> {
    One(&'a [u8]),
    Two(&'a [u8], &'a [u8]),
    Three(&'a [u8], &'a [u8], &'a [u8]),
    Four(&'a [u8], &'a [u8], &'a [u8], &'a [u8]),
    // Five and more.
    Many,
}

// The words of a line.
pub fn cut_words(text: &[u8]) -> Words<'_>
    ensures { AreWords result (words_of text.now) }
{
    let (first, rest) = first_word(text);
    let Some(rest) = rest else {
        return Words::One(first);
    };
    let (second, rest) = first_word(rest);
    let Some(rest) = rest else {
        return Words::Two(first, second);
    };
    let (third, rest) = first_word(rest);
    let Some(rest) = rest else {
        return Words::Three(first, second, third);
    };
    match first_word(rest) {
        (fourth, None) => Words::Four(first, second, third, fourth),
        (_, Some(_)) => Words::Many,
    }
}
