// The core step over lent rooms: every member of a core loses the least weight among them, the bound gains it, and a counter over two
// or more gives it to its root outputs from 2 on. The function is safe on rooms and tallies of any content. What it says, it says of
// each reached session that the rooms hold: the outcome is the paper's, and the rooms then hold the paper's next session. A refusal so
// leaves everything as it was.
#![tactic(auto)]

ghost use Rattle.std.specs.Prelude.{◌≡◌, ◌+◌, ◌^◌, ◌<◌};
ghost use Rattle.paper.specs.Session.{Session, tally_of};
ghost use Rattle.paper.specs.Steps.{core as coreStep, next, outcome};
ghost use Rattle.paper.specs.Runs.{Reached};
ghost use Rattle.clauses.specs.Lent.{SameFamily};
ghost use Rattle.weights.specs.Lent.{SameWeights};
ghost use Rattle.rooms.specs.Held.{HeldDerived, HeldCounters, HeldWeights};

use clauses::{FamilyRooms, FamilyRoomsMut};
use paper::{Answer, Outcome, Reason, Tally};
use weights::WeightRoomsMut;

// The tally after a core. A reached session's bound has room for the weight.
fn relaxed(tally: Tally, counters: u32, weight: u32) -> Outcome
    ensures { tally.bound + weight < 2 ^ 32 → result ≡ record {
      tally = record {
        variables = tally.variables;
        rules = tally.rules;
        wishes = tally.wishes;
        derived = tally.derived;
        counters = counters;
        bound = tally.bound + weight;
      };
      answer = Answer.Core (tally.bound + weight) weight;
    } }
{
    let bound = tally.bound.checked_add(weight).unwrap_or(0);
    Outcome {
        tally: Tally {
            counters,
            bound,
            ..tally
        },
        answer: Answer::Core(bound, weight),
    }
}

// `weights` are the rooms of remaining weights.
pub fn core(
    tally: Tally,
    derived: FamilyRooms,
    counters: &mut FamilyRoomsMut,
    weights: &mut WeightRoomsMut,
    number: u32,
) -> Outcome
    ensures same { SameFamily counters.old counters.new × SameWeights weights.old weights.new }
    ensures stepped { (s : Session) → Reached s → tally ≡ tally_of s
        → HeldDerived derived.entry.literals.now derived.entry.ends.now s
        → HeldCounters counters.old.literals.now counters.old.ends.now s
        → HeldWeights weights.old.wishes.now weights.old.outputs.now s
        → (result ≡ outcome s (coreStep number))
        × HeldCounters counters.new.literals.now counters.new.ends.now (next s (coreStep number))
        × HeldWeights weights.new.wishes.now weights.new.outputs.now (next s (coreStep number)) }
{
    if tally.variables == 0 {
        return openings::refuse(tally, Reason::OutOfTurn);
    }
    if tally.derived <= number {
        return openings::refuse(tally, Reason::NoSuchClause);
    }
    let width = openings::width_of(tally);
    let members = derived.clause(tally.derived, number);
    let Some(weight) = weights.view().least(width, members) else {
        return openings::refuse(tally, Reason::NoCore);
    };
    let count = tally.counters;
    if members.len() < 2 {
        weights.lower(width, members, weight);
        return relaxed(tally, count, weight);
    }
    if width.counters <= count {
        return openings::refuse(tally, Reason::NoRoom);
    }
    let Ok(inputs) = u32::try_from(members.len()) else {
        return openings::refuse(tally, Reason::NoRoom);
    };
    if !counters.append(count, members) {
        return openings::refuse(tally, Reason::NoRoom);
    }
    weights.lower(width, members, weight);
    weights::raise(weights.outputs, width, count, inputs, weight);
    relaxed(tally, count + 1, weight)
}
