// The opening of a session, and what every later step takes from here: the width that a tally was opened with, and a refusal by its
// number. Every function is safe on a tally of any content.
#![tactic(auto)]

ghost use Rattle.std.specs.Prelude.{◌≡◌};
ghost use Rattle.paper.specs.Sizes.{narrow};
ghost use Rattle.paper.specs.Session.{Session, tally_of};
ghost use Rattle.paper.specs.Reasons.{reason_number};
ghost use Rattle.paper.specs.Steps.{opening, outcome};
ghost use Rattle.paper.specs.Runs.{Reached};

use paper::{Answer, MOST_VARIABLES, Outcome, Reason, Tally, Width};

// The width that a tally was opened with. There is one kind of opening so far.
pub fn width_of(_tally: Tally) -> Width
    ensures { result ≡ narrow }
{
    Width {
        literals: 64,
        stride: 384,
        counters: 128,
    }
}

// A refusal by its number, with the tally as it was. Any number will do, and not only a
// `Reason`'s: docs/PROMISES.md has it for every number.
pub fn refused(tally: Tally, number: u32) -> Outcome
    ensures { result ≡ record { tally = tally; answer = Answer.Refused number } }
{
    Outcome {
        tally,
        answer: Answer::Refused(number),
    }
}

// A refusal for a reason. A step hands it back where it refuses, and not by `?`: its answer is an outcome and no `Result`, and a function
// with one would need the step's whole contract once more.
pub fn refuse(tally: Tally, reason: Reason) -> Outcome
    ensures { result ≡ record { tally = tally; answer = Answer.Refused (reason_number reason) } }
{
    refused(tally, reason.number())
}

pub fn open_session(tally: Tally, variables: u32) -> Outcome
    ensures { (s : Session) → Reached s → tally ≡ tally_of s → result ≡ outcome s (opening variables) }
{
    if 0 < tally.variables {
        return refuse(tally, Reason::OutOfTurn);
    }
    if variables < 1 || MOST_VARIABLES < variables {
        return refuse(tally, Reason::WrongVariables);
    }
    Outcome {
        tally: Tally {
            variables,
            ..Tally::default()
        },
        answer: Answer::Opened(variables),
    }
}
