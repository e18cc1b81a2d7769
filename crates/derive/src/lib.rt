// The check of a derivation. The clause's literals are taken as false and the hints are read in their order; each that forces a
// literal assigns it. What was assigned stands on a trail and is taken back from its end, so the value rooms are left as they were,
// whatever they held.
#![tactic(auto)]

ghost use Rattle.std.specs.Prelude.{◌≡◌, ◌≢◌, true, Some, ◌+◌, ◌≤◌, ◌<◌, length};
ghost use Rattle.paper.specs.Sizes.{most_hints};
ghost use Rattle.paper.specs.Clauses.{every};
ghost use Rattle.paper.specs.Session.{Session, tally_of, named_literal, hint_in, hint_named};
ghost use Rattle.paper.specs.Derivation.{assume, misfit};
ghost use Rattle.paper.specs.Runs.{Reached};
ghost use Rattle.values.specs.Lent.{bytes, SameValues, KeptValues};
ghost use Rattle.marks.specs.Marks.{unmarked};
ghost use Rattle.rooms.specs.Held.{Zeros};
ghost use Rattle.hints.specs.Hinted.{HeldClauses};
ghost use Rattle.hints.specs.Lent.{held_in};
ghost use Rattle.derive.specs.Derivations.{hinted, misfit_in, assumed_in, place_of};

use hints::Clauses;
use paper::Reading;
use values::ValueRoomsMut;

pub const MOST_HINTS: usize = 256;

// No width allows more, so that the trail has a place for each.
const MOST_LITERALS: usize = 256;

// The place from 1 of the first hint that does not fit, none where the hints end the derivation, and how many literals the trail has
// then.
#[derive(Clone, Copy)]
struct Followed {
    misfit: Option<usize>,
    count: usize,
}

// The hints in their order. What they force goes on the trail.
fn follow_hints(
    values: &mut ValueRoomsMut,
    clauses: &Clauses,
    hints: &[u64],
    trail: &mut [i32],
    count: usize,
) -> Followed
    requires { count + length hints.now ≤ length trail.old }
    ensures same { SameValues values.old values.new }
    ensures counted { result.misfit ≢ Some 0 }
    ensures within { result.count ≤ length trail.old }
    ensures undone { unmarked (bytes values.new) trail.new result.count
        ≡ unmarked (bytes values.old) trail.old count }
    ensures answer { (s : Session) → Reached s → HeldClauses (held_in clauses.now) s
        → clauses.now.width ≡ s.sheet.width → clauses.now.tally ≡ tally_of s
        → every (λ word. hint_named s.sheet s.work (hint_in word)) hints.now ≡ true
        → place_of result.misfit ≡ misfit_in (bytes values.old) 1 (hinted s hints.now) }
{
    for (i, &hint) in hints.iter().enumerate() {
        let place = i + 1;
        let assigned = count + i;
        match hints::read_hint(values.view(), clauses, hint) {
            Reading::Forces(literal) => {
                marks::assign_next(values, trail, assigned, literal, true);
            }
            Reading::AllFalse if place == hints.len() => {
                return Followed {
                    misfit: None,
                    count: assigned,
                };
            }
            Reading::AllFalse | Reading::AlreadyTrue | Reading::StillOpen => {
                return Followed {
                    misfit: Some(place),
                    count: assigned,
                };
            }
        }
    }
    Followed {
        misfit: Some(hints.len() + 1),
        count: count + hints.len(),
    }
}

// Takes the clause's literals as false, where they have no value yet, and says how many that are.
fn assume(values: &mut ValueRoomsMut, clause: &[i32], trail: &mut [i32]) -> usize
    requires { length clause.now ≤ length trail.old }
    ensures same { SameValues values.old values.new }
    ensures within { result ≤ length clause.now }
    ensures undone { unmarked (bytes values.new) trail.new result
        ≡ bytes values.old }
    ensures assumed { bytes values.new
        ≡ assumed_in (bytes values.old) clause.now }
{
    let mut count: usize = 0;
    for &literal in clause {
        if values.view().value(literal).is_none() {
            marks::assign_next(values, trail, count, literal, false);
            count += 1;
        }
    }
    count
}

// None where the hints show the clause, else the place from 1 of the first that does not fit. The trail has a place for every literal
// and every hint that the sizes allow: more of them, which 16 or 19 has refused, are not followed.
pub fn misfit_of(
    values: &mut ValueRoomsMut,
    clauses: &Clauses,
    clause: &[i32],
    hints: &[u64],
) -> Option<usize>
    ensures kept { KeptValues values.old values.new }
    ensures counted { result ≢ Some 0 }
    ensures answer { (s : Session) → Reached s → HeldClauses (held_in clauses.now) s
        → clauses.now.width ≡ s.sheet.width → clauses.now.tally ≡ tally_of s
        → every (λ word. hint_named s.sheet s.work (hint_in word)) hints.now ≡ true
        → every (named_literal s.sheet s.work) clause.now ≡ true
        → Zeros s.sheet.width (bytes values.old)
        → length hints.now ≤ most_hints → length clause.now ≤ clauses.now.width.literals
        → place_of result ≡ misfit (assume clause.now) 1 (hinted s hints.now) }
    ensures long { (most_hints < length hints.now → result ≡ Some 1)
        × (clauses.now.width.literals < length clause.now → result ≡ Some 1) }
{
    let allowed = MOST_LITERALS.min(clauses.width.literals as usize);
    if MOST_HINTS < hints.len() || allowed < clause.len() {
        return Some(1);
    }
    // No list that grows: nothing here takes memory from a heap. And no struct of trail and count: what fills the trail answers the
    // count, as at `marks::assign_next`.
    let mut trail: [i32; 512] = [0; 512];
    let assumed = assume(values, clause, &mut trail);
    let followed = follow_hints(values, clauses, hints, &mut trail, assumed);
    marks::take_back(&trail, followed.count, values);
    followed.misfit
}
