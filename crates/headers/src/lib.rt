// The header of an older text: where it stands, its three numbers, and where the clauses begin behind its line. The work is in
// proportion to the bytes up to there.
#![tactic(auto)]

ghost use Rattle.std.specs.Prelude.{◌≡◌};
ghost use Rattle.words.specs.Words.{words_at};
ghost use Rattle.headers.specs.Headings.{NumberAt, three_of, heading_of};

use paper::Header;

// A header that has its form.
#[derive(Clone, Copy)]
pub struct Heading {
    // its three numbers
    pub header: Header,
    // where its first number begins
    pub at: usize,
    // where the clauses begin, behind its line's end
    pub end: usize,
}

// A decimal number on a line, and the stretch of its word.
#[derive(Clone, Copy, Debug, PartialEq, Eq)]
pub struct Number {
    pub value: u32,
    pub start: usize,
    pub end: usize,
}

// Three numbers on a line, and no word more.
#[derive(Clone, Copy)]
pub struct Three {
    pub header: Header,
    // where the first begins
    pub at: usize,
}

// The next word, if there is one and it is a number that is not too large. Whoever goes on at its end finds the word behind it.
fn next_number(line: &[u8], at: usize) -> Option<Number>
    ensures { NumberAt line.now at result }
{
    let found = words::next_word(line, at)?;
    let value = numerals::read_decimal(&line[found.start..found.end], u32::MAX)?;
    Some(Number {
        value,
        start: found.start,
        end: found.end,
    })
}

// Nothing is read behind the first word that does not fit.
fn read_numbers(line: &[u8], at: usize) -> Option<Three>
    ensures { result ≡ three_of (words_at line.now at) }
{
    let variables = next_number(line, at)?;
    let clauses = next_number(line, variables.end)?;
    let top = next_number(line, clauses.end)?;
    if words::next_word(line, top.end).is_some() {
        return None;
    }
    Some(Three {
        header: Header {
            variables: variables.value,
            clauses: clauses.value,
            top: top.value,
        },
        at: variables.start,
    })
}

// The numbers are looked for on a stretch that ends with the line, so that no number of the next line is taken for one of these.
pub fn read_header(text: &[u8]) -> Option<Heading>
    ensures { result ≡ heading_of text.now }
{
    let start = words::skip_blanks(text, 0);
    if !words::has_at(text, start, b"p wcnf") {
        return None;
    }
    let end = words::line_end(text, start + 6);
    if end <= start + 6 || !words::is_blank(text[start + 6]) {
        return None;
    }
    let numbers = read_numbers(&text[..end], start + 6)?;
    Some(Heading {
        header: numbers.header,
        at: numbers.at,
        end: end + 1,
    })
}
