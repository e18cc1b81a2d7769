// Where the words of a text stand. A text is any bytes, and a place is counted from its first byte. Every function is safe at any
// place; past the text's end there are no bytes. The work is in proportion to the bytes passed.
#![tactic(auto)]

ghost use Rattle.std.specs.Prelude.{◌≡◌, Bool, ℕ, not, ◌+◌, ◌≤◌, length, drop};
ghost use Rattle.std.specs.List.{position_or_len};
ghost use Rattle.paper.specs.Texts.{blank, comment, gap, word, line, begins};
ghost use Rattle.words.specs.Words.{starts_line, stand_at, Next};

// Where a word begins, and where it ends: behind its last byte. No `Range`, which is not copied.
#[derive(Clone, Copy, Debug, PartialEq, Eq)]
pub struct Found {
    pub start: usize,
    pub end: usize,
}

// A blank is the description's, space, tab, CR and LF and no other: `is_ascii_whitespace` has the form feed too. An arm for each is
// compiled to one look-up of a bit, and one pattern for the four to a test for each, at every byte of a text.
pub fn is_blank(byte: u8) -> bool
    ensures { result ≡ blank byte }
{
    match byte {
        b' ' => true,
        b'\t' => true,
        b'\r' => true,
        b'\n' => true,
        _ => false,
    }
}

fn starts_line(text: &[u8], at: usize) -> bool
    requires { at ≤ length text.now }
    ensures { result ≡ starts_line text.now at }
{
    at == 0 || text[at - 1] == b'\n'
}

fn rest_of(text: &[u8], at: usize) -> &[u8]
    ensures { result.now ≡ drop at text.now }
{
    text.get(at..).unwrap_or_default()
}

// The first place from `at` on whose byte `stops`, or where the bytes end.
fn first_stop<F: Fn(u8) -> bool>(text: &[u8], at: usize, stops: F) -> usize
    requires { F.IsAlwaysCallable stops }
    ensures { (stop : ℕ → Bool) → ((b : ℕ) (r : Bool) → F.post stops b r → r ≡ stop b)
        → result ≡ at + position_or_len stop (drop at text.now) }
{
    let rest = rest_of(text, at);
    at + rest
        .iter()
        .position(|byte| stops(*byte))
        .unwrap_or(rest.len())
}

// A `c` hands over only where it is the very first byte of its line; behind blanks it starts a word like any other byte. Both functions
// count a place by hand: over `first_stop` and over a range comments took three times and one and a half times as long, and with a
// closure to call Rattle's own compiler keeps a frame for each hand-over.
#[cycle(skip_blanks_skip_comment)]
pub fn skip_blanks(text: &[u8], at: usize) -> usize
    ensures { result ≡ at + gap (stand_at text.now at) (drop at text.now) }
{
    let mut place = at;
    while place < text.len() {
        let byte = text[place];
        if byte == b'c' {
            if starts_line(text, place) {
                return skip_comment(text, place + 1);
            }
            return place;
        }
        if !is_blank(byte) {
            return place;
        }
        place += 1;
    }
    place
}

// Hands back behind the LF, as a comment may follow. Where a compiler makes no jumps of the calls, the stack holds two for each comment,
// and none for a blank line.
#[cycle(skip_blanks_skip_comment)]
#[tactic(auto, using(crate::proofs::Gaps::comment_ends))]
pub fn skip_comment(text: &[u8], at: usize) -> usize
    ensures { result ≡ at + gap comment (drop at text.now) }
{
    let mut place = at;
    while place < text.len() {
        let byte = text[place];
        if byte == b'\n' {
            return skip_blanks(text, place + 1);
        }
        place += 1;
    }
    place
}

pub fn word_end(text: &[u8], at: usize) -> usize
    ensures { result ≡ at + length (word (drop at text.now)) }
{
    first_stop(text, at, is_blank)
}

// The next word, where one is left.
pub fn next_word(text: &[u8], at: usize) -> Option<Found>
    ensures { Next text.now at result }
{
    let start = skip_blanks(text, at);
    if text.len() <= start {
        return None;
    }
    let end = word_end(text, start);
    Some(Found { start, end })
}

pub fn line_end(text: &[u8], at: usize) -> usize
    ensures { result ≡ at + length (line (drop at text.now)) }
{
    first_stop(text, at, |byte| byte == b'\n')
}

#[tactic(auto, using(crate::proofs::Beginnings::begins_so))]
pub fn has_at(text: &[u8], at: usize, word: &[u8]) -> bool
    ensures { result ≡ begins word.now (drop at text.now) }
{
    rest_of(text, at).starts_with(word)
}
