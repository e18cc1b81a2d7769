// The remaining weights of a session in two lent rooms: a place for each wish variable, and for each counter as many places as a
// clause has literals at most, for the outputs of its root. Every function is safe on rooms of any content and at any width; what
// it says, it says of each function of the variable that the rooms weigh.
#![tactic(auto)]

ghost use Rattle.std.specs.Prelude.{◌≡◌, List, [], ◌∷◌, map, ℕ, ◌+◌, ◌-◌, ◌*◌, ◌<◌, ◌≤◌, get_or, set};
ghost use Rattle.paper.specs.Sizes.{wish_room, wish_variable, counter_start};
ghost use Rattle.paper.specs.declared.Width.{Width};
ghost use Rattle.paper.specs.Clauses.{variable};
ghost use Rattle.paper.specs.Session.{upper_outputs};
ghost use Rattle.weights.specs.Weights.{Spaced, Weighs, Elsewhere, place_of, gained, lost, member_weight, least_member};
ghost use Rattle.weights.specs.Lent.{SameWeights};

use paper::{FIRST_COUNTER, FIRST_WISH, Width};

// The two rooms, to read: the wishes' own weights, and those of the counters' root outputs. The width is not here: it is the session's
// and goes also where no weights go, and a second one would want a clause that the two agree.
#[derive(Clone, Copy)]
pub struct WeightRooms<'a> {
    pub wishes: &'a [u32],
    pub outputs: &'a [u32],
}

// The two rooms, to write. No generic pair of rooms, for its fields would have no names: see `clauses::FamilyRoomsMut`.
#[derive(Drop)]
pub struct WeightRoomsMut<'a> {
    pub wishes: &'a mut [u32],
    pub outputs: &'a mut [u32],
}

// ── Places ──

// Where the weight of a variable stands.
#[derive(Clone, Copy)]
enum Place {
    InWishes(usize),
    InOutputs(usize),
}

// The product of two numbers of 32 bits and one such number more fit into 64, whatever the width.
fn output_place(literals: u32, counter: u32, output: u32) -> usize
    ensures { result ≡ literals * counter + output }
{
    literals as usize * counter as usize + output as usize
}

// Where the width lets the root outputs of two counters meet, nothing is said.
fn place_of(width: Width, variable: u32) -> Option<Place>
    ensures { Spaced width → result ≡ place_of width variable }
{
    if variable < FIRST_COUNTER {
        let number = variable.checked_sub(FIRST_WISH)?;
        return Some(Place::InWishes(number as usize));
    }
    let past = variable - FIRST_COUNTER;
    let counter = past.checked_div(width.stride)?;
    let output = past % width.stride;
    if width.literals <= output {
        return None;
    }
    Some(Place::InOutputs(output_place(width.literals, counter, output)))
}

// ── Reading ──

impl WeightRooms<'_> {
    // The remaining weight of a variable; one without a place has none.
    pub fn weight_of(self, width: Width, variable: u32) -> u32
        ensures { (f : ℕ → ℕ) → Spaced width → Weighs width self.entry.wishes.now self.entry.outputs.now f
            → Elsewhere width f → result ≡ f variable }
    {
        match place_of(width, variable) {
            Some(Place::InWishes(at)) => self.wishes.get(at).copied().unwrap_or(0),
            Some(Place::InOutputs(at)) => self.outputs.get(at).copied().unwrap_or(0),
            None => 0,
        }
    }

    // The weight that a member of a core has; a literal that is negative or has no weight is none.
    fn member_weight(self, width: Width, literal: i32) -> Option<u32>
        ensures { (f : ℕ → ℕ) → Spaced width → Weighs width self.entry.wishes.now self.entry.outputs.now f
            → Elsewhere width f → result ≡ member_weight f literal }
    {
        let weight = self.weight_of(width, variables::variable_of(literal));
        if variables::is_negative(literal) || weight == 0 {
            return None;
        }
        Some(weight)
    }

    // The least weight of the members: none exactly where the clause is no core, which 22 refuses.
    pub fn least(self, width: Width, clause: &[i32]) -> Option<u32>
        ensures { (f : ℕ → ℕ) → Spaced width → Weighs width self.entry.wishes.now self.entry.outputs.now f
            → Elsewhere width f → result ≡ least_member f clause.now }
    {
        let mut least: Option<u32> = None;
        for literal in clause {
            let weight = self.member_weight(width, *literal)?;
            least = Some(match least {
                Some(so_far) => so_far.min(weight),
                None => weight,
            });
        }
        least
    }
}

// ── Changing ──

// Down to 0 and no further, whatever the room holds; past its end nothing is lowered.
fn lower_at(room: &mut [u32], at: usize, weight: u32)
    ensures { room.new ≡ set room.old at (get_or room.old at 0 - weight) }
{
    let held = room.get(at).copied().unwrap_or(0);
    slices::store(room, at, held.saturating_sub(weight));
}

impl WeightRoomsMut<'_> {
    // The rooms as they are now, to read.
    pub fn view(&self) -> WeightRooms<'_>
        ensures { (result.wishes.now ≡ self.now.wishes.now) × (result.outputs.now ≡ self.now.outputs.now) }
    {
        WeightRooms {
            wishes: self.wishes,
            outputs: self.outputs,
        }
    }

    fn lower_one(&mut self, width: Width, variable: u32, weight: u32)
        ensures same { SameWeights self.old self.new }
        ensures lowered { (f : ℕ → ℕ) → Spaced width → Weighs width self.old.wishes.now self.old.outputs.now f
            → Weighs width self.new.wishes.now self.new.outputs.now (lost f weight (variable ∷ [])) }
    {
        match place_of(width, variable) {
            Some(Place::InWishes(at)) => lower_at(self.wishes, at, weight),
            Some(Place::InOutputs(at)) => lower_at(self.outputs, at, weight),
            None => {}
        }
    }

    // Each member of a core loses the core's weight.
    pub fn lower(&mut self, width: Width, clause: &[i32], weight: u32)
        ensures same { SameWeights self.old self.new }
        ensures lowered { (f : ℕ → ℕ) → Spaced width → Weighs width self.old.wishes.now self.old.outputs.now f
            → Weighs width self.new.wishes.now self.new.outputs.now (lost f weight (map variable clause.now)) }
    {
        for member in clause {
            let variable = variables::variable_of(*member);
            self.lower_one(width, variable, weight);
        }
    }
}

// Root outputs 2 to `inputs` of a new counter get the core's weight, where the room has places for them; output 1 gets none, since the
// bound has it.
pub fn raise(outputs: &mut [u32], width: Width, counter: u32, inputs: u32, weight: u32)
    ensures { (wishes : List ℕ) (f : ℕ → ℕ) → Spaced width → Weighs width wishes outputs.old f
        → inputs ≤ width.literals → ((t : ℕ) → 0 < t → t < inputs → f (counter_start width counter + t) ≡ 0)
        → Weighs width wishes outputs.new (gained f weight (upper_outputs (counter_start width counter) inputs)) }
{
    for output in 1..inputs {
        let at = output_place(width.literals, counter, output);
        slices::store(outputs, at, weight);
    }
}

// A new wish starts with its weight, where the room has a place for it.
pub fn start(wishes: &mut [u32], number: u32, weight: u32)
    ensures { (u : Width) (outputs : List ℕ) (f : ℕ → ℕ) → Weighs u wishes.old outputs f
        → number < wish_room.clauses → f (wish_variable number) ≡ 0
        → Weighs u wishes.new outputs (gained f weight (wish_variable number ∷ [])) }
{
    slices::store(wishes, number as usize, weight);
}
