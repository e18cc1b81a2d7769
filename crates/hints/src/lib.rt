// A hint's clause read where it stands, under the values in the rooms: a rule or a derived clause in its family's room, a wish clause
// with its variable behind its literals, and a counter's clause, which is made for the reading.
#![tactic(auto)]

ghost use Rattle.std.specs.Prelude.{◌≡◌, true, List, [], ℕ, get_or};
ghost use Rattle.paper.specs.Sizes.{wish_room, counter_start};
ghost use Rattle.paper.specs.Clauses.{Clause};
ghost use Rattle.paper.specs.Session.{Session, tally_of, of_wish, of_counter, hint_in, hint_named, hint_clause};
ghost use Rattle.paper.specs.Runs.{Reached};
ghost use Rattle.clauses.specs.Family.{Holds};
ghost use Rattle.values.specs.Lent.{bytes_in};
ghost use Rattle.readings.specs.Readings.{read_in};
ghost use Rattle.rooms.specs.Held.{HeldIn, HeldCounters, wish_family};
ghost use Rattle.hints.specs.Hinted.{HeldClauses, ForcesOpen};
ghost use Rattle.hints.specs.Lent.{held_in};

use clauses::FamilyRooms;
use names::Hint;
use paper::{FIRST_COUNTER, FIRST_WISH, MOST_WISHES, Reading, Tally, Width};
use values::ValueRooms;

// What a derivation is given to read and does not write.
#[derive(Clone, Copy)]
pub struct Given<'a> {
    pub rules: FamilyRooms<'a, 'a>,
    pub wishes: FamilyRooms<'a, 'a>,
    // the counters' inputs
    pub counters: FamilyRooms<'a, 'a>,
}

// The rooms of every clause that a hint can name, with the sizes and the counts that go with them.
#[derive(Clone, Copy)]
pub struct Clauses<'a> {
    pub given: Given<'a>,
    pub derived: FamilyRooms<'a, 'a>,
    pub width: Width,
    pub tally: Tally,
}

// A clause that stands whole in its family's room.
fn read_stored(values: ValueRooms, family: &FamilyRooms, count: u32, number: u32) -> Reading
    ensures forces { ForcesOpen (bytes_in values.entry) result }
    ensures reads { (size most : ℕ) (clauses : List Clause)
        → Holds size most family.now.literals.now family.now.ends.now count clauses
        → result ≡ read_in (bytes_in values.entry) (get_or clauses number []) }
{
    readings::read(values, family.clause(count, number))
}

// A wish clause is the stretch of its literals and then its wish variable.
fn read_wish(values: ValueRooms, wishes: &FamilyRooms, count: u32, number: u32) -> Reading
    ensures forces { ForcesOpen (bytes_in values.entry) result }
    ensures reads { (s : Session)
        → HeldIn wish_room wishes.now.literals.now wishes.now.ends.now (wish_family s.sheet.wishes)
        → count ≡ (tally_of s).wishes → hint_named s.sheet s.work (of_wish number) ≡ true
        → result ≡ read_in (bytes_in values.entry) (hint_clause s.sheet s.work (of_wish number)) }
{
    if MOST_WISHES <= number {
        return Reading::StillOpen;
    }
    let reading = readings::read(values, wishes.clause(count, number));
    readings::read_one(reading, values, (FIRST_WISH + number) as i32)
}

// Any two numbers of 32 bits will do: their product leaves room in 64.
fn counter_start(width: Width, counter: u32) -> usize
    ensures { result ≡ counter_start width counter }
{
    FIRST_COUNTER as usize + width.stride as usize * counter as usize
}

// A clause of a counter is made where it is read: no counter's clauses are stored.
fn read_counter(values: ValueRooms, clauses: &Clauses, counter: u32, number: u32) -> Reading
    ensures forces { ForcesOpen (bytes_in values.entry) result }
    ensures reads { (s : Session) → Reached s
        → HeldCounters clauses.now.given.counters.literals.now clauses.now.given.counters.ends.now s
        → clauses.now.tally.counters ≡ (tally_of s).counters → clauses.now.width ≡ s.sheet.width
        → hint_named s.sheet s.work (of_counter counter number) ≡ true
        → result ≡ read_in (bytes_in values.entry) (hint_clause s.sheet s.work (of_counter counter number)) }
{
    let inputs = &clauses.given.counters;
    let members = inputs.clause(clauses.tally.counters, counter);
    let start = counter_start(clauses.width, counter);
    let clause = counters::counter_clause(members, start, number as usize);
    readings::read_on(Reading::AllFalse, values, &clause.literals[..clause.length])
}

// The clause that a hint names, under the present values. Hints that name nothing have got 19 before this is asked: a clause that is
// absent would be read as an empty one, which ends a derivation.
pub fn read_hint(values: ValueRooms, clauses: &Clauses, hint: u64) -> Reading
    ensures forces { ForcesOpen (bytes_in values.entry) result }
    ensures reads { (s : Session) → Reached s → HeldClauses (held_in clauses.now) s
        → clauses.now.width ≡ s.sheet.width → clauses.now.tally ≡ tally_of s
        → hint_named s.sheet s.work (hint_in hint) ≡ true
        → result ≡ read_in (bytes_in values.entry) (hint_clause s.sheet s.work (hint_in hint)) }
{
    let given = &clauses.given;
    match Hint::from(hint) {
        Hint::Counter(counter, number) => read_counter(values, clauses, counter, number),
        Hint::Wish(number) => read_wish(values, &given.wishes, clauses.tally.wishes, number),
        Hint::Rule(number) => read_stored(values, &given.rules, clauses.tally.rules, number),
        Hint::Derived(number) => read_stored(
            values,
            &clauses.derived,
            clauses.tally.derived,
            number,
        ),
        Hint::Nothing => Reading::StillOpen,
    }
}
