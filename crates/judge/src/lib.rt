// The judging of an arrangement over lent rooms: the lowest rule that it breaks, or else what it costs against the bound. Every
// function is safe on rooms, tallies and arrangements of any content; what it says, it says of each reached session that the
// rooms hold. The work is in proportion to the literals of the clauses counted, and of each only up to its first true one.
#![tactic(auto)]

ghost use Rattle.std.specs.Prelude.{◌≡◌, List, ℕ, ◌-◌, ◌^◌, ◌<◌, length};
ghost use Rattle.paper.specs.Clauses.{Clause, literal_true, clause_true};
ghost use Rattle.paper.specs.Session.{Session, tally_of};
ghost use Rattle.paper.specs.Truth.{arranged, cost};
ghost use Rattle.paper.specs.Steps.{judge as judgeStep, judged, answer};
ghost use Rattle.paper.specs.Runs.{Reached};
ghost use Rattle.clauses.specs.Family.{Holds};
ghost use Rattle.rooms.specs.Held.{HeldRules, HeldWishes};
ghost use Rattle.judge.specs.Broken.{lowest_broken};

use clauses::FamilyRooms;
use paper::{Answer, Reason, Tally};

// The description counts bits from variable 1 on, in natural numbers: for the absent variable 0 it reads the bit of variable 1.
fn variable_holds(arrangement: &[u8], variable: u32) -> bool
    ensures { result ≡ arranged arrangement.now variable }
{
    let bit = variable.saturating_sub(1);
    match arrangement.get((bit / 8) as usize) {
        Some(byte) => (*byte >> (bit % 8)) % 2 == 1,
        None => false,
    }
}

// A literal is true where its variable's truth differs from its sign.
fn literal_holds(arrangement: &[u8], literal: i32) -> bool
    ensures { result ≡ literal_true (arranged arrangement.now) literal }
{
    let variable = variables::variable_of(literal);
    variable_holds(arrangement, variable) != variables::is_negative(literal)
}

pub fn clause_holds(arrangement: &[u8], clause: &[i32]) -> bool
    ensures { result ≡ clause_true (arranged arrangement.now) clause.now }
{
    clause
        .iter()
        .any(|literal| literal_holds(arrangement, *literal))
}

// The lowest rule that is broken.
fn broken_rule(arrangement: &[u8], rules: FamilyRooms, count: u32) -> Option<u32>
    ensures { (size most : ℕ) (family : List Clause)
        → Holds size most rules.entry.literals.now rules.entry.ends.now count family
        → result ≡ lowest_broken (arranged arrangement.now) family }
{
    for number in 0..count {
        if !clause_holds(arrangement, rules.clause(count, number)) {
            return Some(number);
        }
    }
    None
}

// The summed weight of the wishes that are broken. In 64 bits no sum over a count of 32 bits wraps, whatever the rooms hold; and past
// the room of weights none is looked at, whatever the tally counts.
fn cost_of(arrangement: &[u8], wishes: FamilyRooms, weights: &[u32], count: u32) -> u64
    ensures { (s : Session) → count ≡ length s.sheet.wishes
        → HeldWishes wishes.entry.literals.now wishes.entry.ends.now weights.now s
        → result ≡ cost s.sheet (arranged arrangement.now) }
{
    let mut sum: u64 = 0;
    for number in 0..count {
        let Some(weight) = weights.get(number as usize) else {
            return sum;
        };
        if !clause_holds(arrangement, wishes.clause(count, number)) {
            sum += u64::from(*weight);
        }
    }
    sum
}

// No reached session costs more than 32 bits hold; where rooms that hold none sum up to more, the answer is a fixed one.
fn compared(cost: u64, bound: u32) -> Answer
    ensures { cost < 2 ^ 32 → result ≡ judged cost bound }
{
    match u32::try_from(cost) {
        Ok(cost) if cost == bound => Answer::Best(cost, bound),
        Ok(cost) => Answer::Counted(cost, bound),
        Err(_) => Answer::from(Reason::OutOfTurn),
    }
}

// Judges an arrangement. The session does not change: every room is only read.
pub fn judge(
    tally: Tally,
    rules: FamilyRooms,
    wishes: FamilyRooms,
    wish_weights: &[u32],
    arrangement: &[u8],
) -> Answer
    ensures { (s : Session) → Reached s → tally ≡ tally_of s
        → HeldRules rules.entry.literals.now rules.entry.ends.now s
        → HeldWishes wishes.entry.literals.now wishes.entry.ends.now wish_weights.now s
        → result ≡ answer s (judgeStep (arranged arrangement.now)) }
{
    if tally.variables == 0 {
        return Answer::from(Reason::OutOfTurn);
    }
    if let Some(number) = broken_rule(arrangement, rules, tally.rules) {
        return Answer::Broken(number);
    }
    let cost = cost_of(arrangement, wishes, wish_weights, tally.wishes);
    compared(cost, tally.bound)
}
