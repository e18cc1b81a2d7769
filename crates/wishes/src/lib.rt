// The step that writes a wish, over lent rooms. The function is safe on rooms and tallies of any content. What it says, it says of each
// reached session that the rooms hold: the outcome is the paper's, and the rooms then hold the paper's next session. A refusal so
// leaves everything as it was.
#![tactic(auto)]

ghost use Rattle.std.specs.Prelude.{◌≡◌, List, ℕ};
ghost use Rattle.paper.specs.Sizes.{narrow};
ghost use Rattle.paper.specs.Session.{Session, tally_of};
ghost use Rattle.paper.specs.Steps.{wish as wishStep, next, outcome};
ghost use Rattle.paper.specs.Runs.{Reached};
ghost use Rattle.clauses.specs.Lent.{SameFamily};
ghost use Rattle.values.specs.Lent.{bytes, KeptValues};
ghost use Rattle.rooms.specs.Held.{HeldWishes, HeldWeights, Zeros};

use clauses::FamilyRoomsMut;
use paper::{Answer, FIRST_WISH, MOST_WEIGHT, MOST_WISHES, Outcome, Reason, Tally};
use values::ValueRoomsMut;

// `left` is the room of the remaining weights of wish variables.
pub fn wish(
    tally: Tally,
    wishes: &mut FamilyRoomsMut,
    weights: &mut [u32],
    left: &mut [u32],
    values: &mut ValueRoomsMut,
    weight: u32,
    clause: &[i32],
) -> Outcome
    ensures same { SameFamily wishes.old wishes.new }
    ensures kept { KeptValues values.old values.new }
    ensures stepped { (s : Session) (outputs : List ℕ) → Reached s → tally ≡ tally_of s
        → HeldWishes wishes.old.literals.now wishes.old.ends.now weights.old s
        → HeldWeights left.old outputs s
        → Zeros narrow (bytes values.old)
        → (result ≡ outcome s (wishStep weight clause.now))
        × HeldWishes wishes.new.literals.now wishes.new.ends.now weights.new (next s (wishStep weight clause.now))
        × HeldWeights left.new outputs (next s (wishStep weight clause.now)) }
{
    let variables = tally.variables;
    if variables == 0 {
        return openings::refuse(tally, Reason::OutOfTurn);
    }
    if weight < 1 || MOST_WEIGHT < weight {
        return openings::refuse(tally, Reason::WrongWeight);
    }
    let most = openings::width_of(tally).literals as usize;
    if let Err(reason) = marks::problem_refusal(most, variables, clause, values) {
        return openings::refuse(tally, reason);
    }
    let count = tally.wishes;
    if MOST_WISHES <= count || !wishes.append(count, clause) {
        return openings::refuse(tally, Reason::NoRoom);
    }
    slices::store(weights, count as usize, weight);
    weights::start(left, count, weight);
    Outcome {
        tally: Tally {
            wishes: count + 1,
            ..tally
        },
        answer: Answer::Wish(count, FIRST_WISH + count),
    }
}
