// The variables of a clause marked in the two value rooms, to tell them apart, and the trail of what a derivation assigns. Whatever
// is marked or assigned is taken back from its end, so that the rooms are left as they were.
#![tactic(auto)]

ghost use Rattle.std.specs.Prelude.{◌≡◌, Bool, true, ℕ, ◌+◌, ◌≤◌, ◌<◌, ℤ, length, set, replicate};
ghost use Rattle.paper.specs.declared.Width.{Width};
ghost use Rattle.paper.specs.Clauses.{variable, every};
ghost use Rattle.paper.specs.Session.{problem_literal};
ghost use Rattle.paper.specs.Derivation.{unassigned, assign as assignment};
ghost use Rattle.paper.specs.Steps.{admission};
ghost use Rattle.paper.specs.Reasons.{refusal_number};
ghost use Rattle.clauses.specs.Lowest.{lowest};
ghost use Rattle.values.specs.Values.{literal_in, assigned_in};
ghost use Rattle.values.specs.Lent.{bytes, SameValues, KeptValues};
ghost use Rattle.marks.specs.Marks.{fresh, unmarked, Marked};

use paper::Reason;
use values::ValueRoomsMut;

// Assigns a literal and puts it on the trail, so that it is taken back with the others there; a trail without the place is left alone.
// No struct of trail and count: what fills a trail answers the count, and a clause would have to name both fields all the same.
pub fn assign_next(
    values: &mut ValueRoomsMut,
    trail: &mut [i32],
    count: usize,
    literal: i32,
    truth: bool,
)
    ensures same { SameValues values.old values.new }
    ensures assigned { bytes values.new
        ≡ assigned_in (bytes values.old) (assignment literal truth) }
    ensures undone { count < length trail.old
        → literal_in (bytes values.old) literal ≡ unassigned
        → unmarked (bytes values.new) trail.new (count + 1)
        ≡ unmarked (bytes values.old) trail.old count }
    ensures noted { trail.new ≡ set trail.old count literal }
{
    values.assign(literal, truth);
    slices::store(trail, count, literal);
}

// Marks the literals' variables up to one that is marked already, and says how many literals that were.
fn mark(clause: &[i32], values: &mut ValueRoomsMut) -> usize
    ensures same { SameValues values.old values.new }
    ensures marked { Marked (bytes values.old) clause.now result
        (bytes values.new) }
{
    for (count, literal) in clause.iter().enumerate() {
        let variable = variables::variable_of(*literal);
        if values.view().at(variable) != 0 {
            return count;
        }
        values.put(variable, 1);
    }
    clause.len()
}

// The last mark first: so each is taken away where it was set.
fn unmark(clause: &[i32], values: &mut ValueRoomsMut)
    ensures same { SameValues values.old values.new }
    ensures unmarked { bytes values.new
        ≡ unmarked (bytes values.old) clause.now (length clause.now) }
{
    for literal in clause.iter().rev() {
        values.unassign(*literal);
    }
}

// Takes back the first so many literals of a trail, the last of them first; nothing where the trail has fewer.
pub fn take_back(trail: &[i32], count: usize, values: &mut ValueRoomsMut)
    ensures same { SameValues values.old values.new }
    ensures within { count ≤ length trail.now → bytes values.new
        ≡ unmarked (bytes values.old) trail.now count }
    ensures past { length trail.now < count
        → KeptValues values.old values.new }
{
    if let Some(part) = trail.get(..count) {
        unmark(part, values);
    }
}

// No variable stands twice, as far as rooms of zeros with a place for each variable can tell. The rooms are left as they were,
// whatever they held.
pub fn distinct(clause: &[i32], values: &mut ValueRoomsMut) -> bool
    ensures kept { KeptValues values.old values.new }
    ensures answer { result ≡ fresh (bytes values.old) clause.now }
{
    let count = mark(clause, values);
    take_back(clause, count, values);
    count == clause.len()
}

// The lowest of the three refusals that applies to a clause, if one does. Whether each literal names something is told: there is more
// than one test for that. Of a clause that is too long it need not be known, so that nobody has to go through it.
pub fn clause_refusal(
    most: usize,
    all_named: bool,
    clause: &[i32],
    values: &mut ValueRoomsMut,
) -> Result<(), Reason>
    ensures kept { KeptValues values.old values.new }
    ensures answer { (size : ℕ) (u : Width) (named : ℤ → Bool) → bytes values.old ≡ replicate size 0
        → ((l : ℤ) → named l ≡ true → variable l < size) → u.literals ≡ most
        → (length clause.now ≤ most → all_named ≡ every named clause.now)
        → refusal_number result ≡ lowest (admission u named clause.now) }
{
    if most < clause.len() {
        return Err(Reason::TooManyLiterals);
    }
    if !all_named {
        return Err(Reason::StrangeLiteral);
    }
    if !distinct(clause, values) {
        return Err(Reason::VariableTwice);
    }
    Ok(())
}

// The same for a clause over the problem's variables.
pub fn problem_refusal(
    most: usize,
    variables: u32,
    clause: &[i32],
    values: &mut ValueRoomsMut,
) -> Result<(), Reason>
    ensures kept { KeptValues values.old values.new }
    ensures answer { (size : ℕ) (u : Width) → bytes values.old ≡ replicate size 0 → variables < size
        → u.literals ≡ most
        → refusal_number result ≡ lowest (admission u (problem_literal variables) clause.now) }
{
    let all_named = clause.len() <= most && variables::all_problem(variables, clause);
    clause_refusal(most, all_named, clause, values)
}
