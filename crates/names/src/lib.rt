// What a derived clause and its hints may name. A variable is looked up by dividing: the counter that it stands in is a quotient
// by the stride, and its place there the remainder.
#![tactic(auto)]

ghost use Rattle.std.specs.Prelude.{◌≡◌, ◌/◌, ◌%◌};
ghost use Rattle.paper.specs.Clauses.{every};
ghost use Rattle.paper.specs.Session.{Session, named_literal, hint_in, hint_named};
ghost use Rattle.paper.specs.Steps.{admission};
ghost use Rattle.paper.specs.Reasons.{refusal_number};
ghost use Rattle.clauses.specs.Lowest.{lowest};
ghost use Rattle.values.specs.Lent.{bytes, KeptValues};
ghost use Rattle.rooms.specs.Held.{Zeros};
ghost use Rattle.names.specs.Names.{Knows, in_counter, said};

use paper::{FIRST_COUNTER, FIRST_WISH, Reason, Tally, Width};
use values::ValueRoomsMut;

// The clause that a hint names, by its number; before a counter's clause stands the counter's own number. A hint of another family,
// or with a first number where none belongs, names nothing.
#[derive(Clone, Copy, PartialEq, Eq)]
pub enum Hint {
    Rule(u32),
    Wish(u32),
    Counter(u32, u32),
    Derived(u32),
    Nothing,
}

// The parts of a hint, from the lowest bytes on.
#[derive(Clone, Copy)]
pub struct Parts {
    pub family: u32,
    pub first: u32,
    pub second: u32,
}

// `Hint::from` is the form to use; the parts by their numbers are a promise of their own (docs/PROMISES.md).
pub fn parts_of(hint: u64) -> Parts
    ensures { result ≡ record { family = hint % 65536; first = hint / 65536 % 65536; second = hint / 4294967296 } }
{
    Parts {
        family: (hint % 65536) as u32,
        first: (hint / 65536 % 65536) as u32,
        second: (hint / 4294967296) as u32,
    }
}

impl From<u64> for Hint {
    ghost from_gives = { λ word given. said given ≡ hint_in word };

    fn from(word: u64) -> Hint {
        let parts = parts_of(word);
        match (parts.family, parts.first) {
            (1, 0) => Hint::Rule(parts.second),
            (2, 0) => Hint::Wish(parts.second),
            (3, first) => Hint::Counter(first, parts.second),
            (4, 0) => Hint::Derived(parts.second),
            _ => Hint::Nothing,
        }
    }
}

// What a session knows names in: how wide it is, how many there are of each family, and the room that tells each counter's size.
// The ends stand alone: the sizes of the counters tell what is named, so a caller need not have their inputs.
#[derive(Clone, Copy)]
pub struct Known<'a> {
    pub width: Width,
    pub tally: Tally,
    pub counter_ends: &'a [u32],
}

impl Known<'_> {
    // The counter variable that stands so far past the first counter's first. An absent counter has no inputs in its room, and so no
    // variables: its number needs no test.
    fn in_counter(self, past: u32) -> bool
        ensures { (s : Session) → Knows self.entry.tally self.entry.counter_ends.now s → self.entry.width ≡ s.sheet.width
            → result ≡ in_counter s.sheet.width s.work.counters past }
    {
        let stride = self.width.stride;
        // In no session; but nothing else here keeps the division safe.
        if stride == 0 {
            return false;
        }
        let inputs = clauses::size_of(self.counter_ends, past / stride);
        ((past % stride) as usize) < tables::variables_of(inputs)
    }

    // A literal of a derived clause names a problem, wish or counter variable.
    fn named(self, literal: i32) -> bool
        ensures { (s : Session) → Knows self.entry.tally self.entry.counter_ends.now s → self.entry.width ≡ s.sheet.width
            → result ≡ named_literal s.sheet s.work literal }
    {
        let variable = variables::variable_of(literal);
        if variable < FIRST_WISH {
            return 1 <= variable && variable <= self.tally.variables;
        }
        if variable < FIRST_COUNTER {
            return variable - FIRST_WISH < self.tally.wishes;
        }
        self.in_counter(variable - FIRST_COUNTER)
    }

    // No `all`: what its closure promises leaves out what `named` says.
    fn all_named(self, clause: &[i32]) -> bool
        ensures { (s : Session) → Knows self.entry.tally self.entry.counter_ends.now s → self.entry.width ≡ s.sheet.width
            → result ≡ every (named_literal s.sheet s.work) clause.now }
    {
        for literal in clause {
            if !self.named(*literal) {
                return false;
            }
        }
        true
    }

    // The lowest of the three refusals that applies to a derived clause, if one does.
    pub fn refusal(self, clause: &[i32], values: &mut ValueRoomsMut) -> Result<(), Reason>
        ensures kept { KeptValues values.old values.new }
        ensures answer { (s : Session) → Knows self.entry.tally self.entry.counter_ends.now s → self.entry.width ≡ s.sheet.width
            → Zeros s.sheet.width (bytes values.old)
            → refusal_number result ≡ lowest (admission s.sheet.width (named_literal s.sheet s.work) clause.now) }
    {
        let most = self.width.literals as usize;
        let all_named = clause.len() <= most && self.all_named(clause);
        marks::clause_refusal(most, all_named, clause, values)
    }

    fn hint_named(self, hint: Hint) -> bool
        ensures { (s : Session) → Knows self.entry.tally self.entry.counter_ends.now s
            → result ≡ hint_named s.sheet s.work (said hint) }
    {
        match hint {
            Hint::Rule(number) => number < self.tally.rules,
            Hint::Wish(number) => number < self.tally.wishes,
            Hint::Counter(counter, number) => {
                let inputs = clauses::size_of(self.counter_ends, counter);
                (number as usize) < tables::clauses_of(inputs)
            }
            Hint::Derived(number) => number < self.tally.derived,
            Hint::Nothing => false,
        }
    }

    // Every hint names a clause. No `all`, as above.
    pub fn all_hints_named(self, hints: &[u64]) -> bool
        ensures { (s : Session) → Knows self.entry.tally self.entry.counter_ends.now s
            → result ≡ every (λ word. hint_named s.sheet s.work (hint_in word)) hints.now }
    {
        for word in hints {
            if !self.hint_named(Hint::from(*word)) {
                return false;
            }
        }
        true
    }
}
