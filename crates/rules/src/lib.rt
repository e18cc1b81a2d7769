// The step that writes a rule, over lent rooms. The function is safe on rooms and tallies of any content. What it says, it says of each
// reached session that the rooms hold: the outcome is the paper's, and the rooms then hold the paper's next session. A refusal so
// leaves everything as it was.
#![tactic(auto)]

ghost use Rattle.std.specs.Prelude.{◌≡◌};
ghost use Rattle.paper.specs.Sizes.{narrow};
ghost use Rattle.paper.specs.Session.{Session, tally_of};
ghost use Rattle.paper.specs.Steps.{rule as ruleStep, next, outcome};
ghost use Rattle.paper.specs.Runs.{Reached};
ghost use Rattle.clauses.specs.Lent.{SameFamily};
ghost use Rattle.values.specs.Lent.{bytes, KeptValues};
ghost use Rattle.rooms.specs.Held.{HeldRules, Zeros};

use clauses::FamilyRoomsMut;
use paper::{Answer, MOST_RULES, Outcome, Reason, Tally};
use values::ValueRoomsMut;

pub fn rule(
    tally: Tally,
    rules: &mut FamilyRoomsMut,
    values: &mut ValueRoomsMut,
    clause: &[i32],
) -> Outcome
    ensures same { SameFamily rules.old rules.new }
    ensures kept { KeptValues values.old values.new }
    ensures stepped { (s : Session) → Reached s → tally ≡ tally_of s
        → HeldRules rules.old.literals.now rules.old.ends.now s
        → Zeros narrow (bytes values.old)
        → (result ≡ outcome s (ruleStep clause.now))
        × HeldRules rules.new.literals.now rules.new.ends.now (next s (ruleStep clause.now)) }
{
    let variables = tally.variables;
    if variables == 0 {
        return openings::refuse(tally, Reason::OutOfTurn);
    }
    let most = openings::width_of(tally).literals as usize;
    if let Err(reason) = marks::problem_refusal(most, variables, clause, values) {
        return openings::refuse(tally, reason);
    }
    let count = tally.rules;
    if MOST_RULES <= count || !rules.append(count, clause) {
        return openings::refuse(tally, Reason::NoRoom);
    }
    Outcome {
        tally: Tally {
            rules: count + 1,
            ..tally
        },
        answer: Answer::Rule(count),
    }
}
