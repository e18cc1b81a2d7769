// A clause read under the values of two lent rooms: all false, one literal left to be true, one true already, or more left open.
#![tactic(auto)]

ghost use Rattle.std.specs.Prelude.{◌≡◌, true, false, List, [], ◌∷◌, ◌++◌, ℕ};
ghost use Rattle.paper.specs.Derivation.{is};
ghost use Rattle.values.specs.Values.{literal_in};
ghost use Rattle.values.specs.Lent.{bytes_in};
ghost use Rattle.readings.specs.Readings.{read_in, both};

use paper::Reading;
use values::ValueRooms;

// A reading with one literal more.
pub fn read_one(reading: Reading, values: ValueRooms, literal: i32) -> Reading
    ensures { result ≡ both reading (read_in (bytes_in values.entry) (literal ∷ [])) }
{
    match values.value(literal) {
        Some(false) => reading,
        Some(true) => Reading::AlreadyTrue,
        None => match reading {
            Reading::AllFalse => Reading::Forces(literal),
            Reading::Forces(_) | Reading::StillOpen => Reading::StillOpen,
            Reading::AlreadyTrue => Reading::AlreadyTrue,
        },
    }
}

// A reading with a stretch of literals more.
pub fn read_on(reading: Reading, values: ValueRooms, part: &[i32]) -> Reading
    ensures { result ≡ both reading (read_in (bytes_in values.entry) part.now) }
{
    let mut known = reading;
    for &literal in part {
        known = read_one(known, values, literal);
    }
    known
}

// A literal that its byte in the first room tells to be false. A byte that nobody writes tells nothing, and neither does the second
// room, which few clauses need.
fn told_false(low: &[u8], literal: i32) -> bool
    ensures { result ≡ true → (rest : List ℕ) → literal_in (low.now ++ rest) literal ≡ is false }
{
    let place = variables::variable_of(literal) as usize;
    place < low.len() && low[place] == values::byte_for(literal, false)
}

// The reading of a whole clause. A hint that fits has at most one literal that is not false, so it is enough to find that one;
// only a clause with more of them is read again, literal by literal.
pub fn read(values: ValueRooms, part: &[i32]) -> Reading
    ensures { result ≡ read_in (bytes_in values.entry) part.now }
{
    let mut other: Option<i32> = None;
    for &literal in part {
        if !told_false(values.low, literal) {
            if other.is_some() {
                return read_on(Reading::AllFalse, values, part);
            }
            other = Some(literal);
        }
    }
    match other {
        None => Reading::AllFalse,
        Some(literal) => read_one(Reading::AllFalse, values, literal),
    }
}
