// The step that stores a derived clause, over lent rooms. The function is safe on rooms and tallies of any content. What it says, it
// says of each reached session that the rooms hold: the outcome is the paper's, and the rooms then hold the paper's next session. A
// refusal so leaves everything as it was.
#![tactic(auto)]

ghost use Rattle.std.specs.Prelude.{◌≡◌, map};
ghost use Rattle.paper.specs.Sizes.{narrow};
ghost use Rattle.paper.specs.Session.{Session, tally_of, hint_in};
ghost use Rattle.paper.specs.Steps.{derive as deriveStep, next, outcome};
ghost use Rattle.paper.specs.Runs.{Reached};
ghost use Rattle.clauses.specs.Lent.{SameFamily};
ghost use Rattle.values.specs.Lent.{bytes, KeptValues};
ghost use Rattle.rooms.specs.Held.{HeldDerived, Zeros};
ghost use Rattle.hints.specs.Hinted.{HeldClauses};
ghost use Rattle.hints.specs.Lent.{given_with};

use clauses::FamilyRoomsMut;
use hints::{Clauses, Given};
use names::Known;
use paper::{Answer, MOST_DERIVED, Outcome, Reason, Tally};
use values::ValueRoomsMut;

// A hint is the number of its 8 bytes.
pub fn derive(
    tally: Tally,
    given: Given,
    derived: &mut FamilyRoomsMut,
    values: &mut ValueRoomsMut,
    clause: &[i32],
    hints: &[u64],
) -> Outcome
    ensures same { SameFamily derived.old derived.new }
    ensures kept { KeptValues values.old values.new }
    ensures stepped { (s : Session) → Reached s → tally ≡ tally_of s
        → HeldClauses (given_with given.entry derived.old.literals.now derived.old.ends.now) s
        → Zeros narrow (bytes values.old)
        → (result ≡ outcome s (deriveStep clause.now (map hint_in hints.now)))
        × HeldDerived derived.new.literals.now derived.new.ends.now
        (next s (deriveStep clause.now (map hint_in hints.now))) }
{
    if tally.variables == 0 {
        return openings::refuse(tally, Reason::OutOfTurn);
    }
    let width = openings::width_of(tally);
    let known = Known {
        width,
        tally,
        counter_ends: given.counters.ends,
    };
    if let Err(reason) = known.refusal(clause, values) {
        return openings::refuse(tally, reason);
    }
    if derive::MOST_HINTS < hints.len() || !known.all_hints_named(hints) {
        return openings::refuse(tally, Reason::StrangeHint);
    }
    let clauses = Clauses {
        given,
        derived: derived.view(),
        width,
        tally,
    };
    if derive::misfit_of(values, &clauses, clause, hints).is_some() {
        return openings::refuse(tally, Reason::NotShown);
    }
    if MOST_DERIVED <= tally.derived || !derived.append(tally.derived, clause) {
        return openings::refuse(tally, Reason::NoRoom);
    }
    Outcome {
        tally: Tally {
            derived: tally.derived + 1,
            ..tally
        },
        answer: Answer::Derived(tally.derived, clause.len() as u32),
    }
}
