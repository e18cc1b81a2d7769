// Families of clauses in lent rooms: a clause by its number, one more clause, and the look-up of a rule or of a derived clause as the
// very stretch of its room. Every function is safe on rooms of any content; what it says, it says of each
// family that the rooms hold.
#![tactic(auto)]

ghost use Rattle.std.specs.Prelude.{◌≡◌, List, [], ℕ, ◌+◌, ◌^◌, ◌≤◌, ◌<◌, ℤ, length, get_or};
ghost use Rattle.std.proofs.Math.Seq.{paste};
ghost use Rattle.paper.specs.Clauses.{Clause};
ghost use Rattle.clauses.specs.Family.{Holds, start_in, Appended};
ghost use Rattle.clauses.specs.LookUp.{look_up};
ghost use Rattle.clauses.specs.Lent.{SameFamily};

// The two rooms of a family, to read: the literals of one clause after the other, and where each clause ends. The count of the clauses
// is not here: it stands in the tally, which is lent by itself, and a second one would want a clause that the two agree.
#[derive(Clone, Copy)]
pub struct FamilyRooms<'literals, 'ends> {
    pub literals: &'literals [i32],
    pub ends: &'ends [u32],
}

// The two rooms of a family, to add to. The rooms of values and of weights have such a pair of structs too, and no generic one serves the
// three: its fields would have no names.
#[derive(Drop)]
pub struct FamilyRoomsMut<'a> {
    pub literals: &'a mut [i32],
    pub ends: &'a mut [u32],
}

// Where a clause begins.
fn start_of(ends: &[u32], number: usize) -> usize
    ensures { (result ≡ start_in ends.now number) × (result < 2 ^ 32) }
{
    if number == 0 {
        return 0;
    }
    let end = ends.get(number - 1).copied().unwrap_or(0);
    end as usize
}

impl<'literals> FamilyRooms<'literals, '_> {
    // The very stretch of the room that a clause stands in, which outlives the ends; an empty one for an absent number.
    pub fn clause(self, count: u32, number: u32) -> &'literals [i32]
        ensures { (size most : ℕ) (family : List Clause)
            → Holds size most self.entry.literals.now self.entry.ends.now count family
            → result.now ≡ get_or family number [] }
    {
        if count <= number {
            return &self.literals[..0];
        }
        let start = start_of(self.ends, number as usize);
        let end = start_of(self.ends, number as usize + 1);
        slices::part(self.literals, start, end)
    }
}

// How many literals a clause has. No count is asked: past the last clause the ends are zeros, which make a size of 0.
pub fn size_of(ends: &[u32], number: u32) -> usize
    ensures { (size most count : ℕ) (literals : List ℤ) (family : List Clause)
        → Holds size most literals ends.now count family → result ≡ length (get_or family number []) }
{
    let start = start_of(ends, number as usize);
    let end = start_of(ends, number as usize + 1);
    end.saturating_sub(start)
}

// No `copy_from_slice`: behind a struct's reference it becomes a call of memmove, which a program that links the library for C need
// not have.
fn copy_in(clause: &[i32], literals: &mut [i32], start: usize)
    requires { start + length clause.now ≤ length literals.old }
    ensures { literals.new ≡ paste literals.old start clause.now (length clause.now) }
{
    for (place, &literal) in clause.iter().enumerate() {
        literals[start + place] = literal;
    }
}

impl FamilyRoomsMut<'_> {
    // The rooms as they are now, to read.
    pub fn view(&self) -> FamilyRooms<'_, '_>
        ensures { (result.literals.now ≡ self.now.literals.now) × (result.ends.now ≡ self.now.ends.now) }
    {
        FamilyRooms {
            literals: self.literals,
            ends: self.ends,
        }
    }

    // Puts a clause after the others, where both rooms have space for it.
    pub fn append(&mut self, count: u32, clause: &[i32]) -> bool
        ensures same { SameFamily self.old self.new }
        ensures appended { Appended self.old.literals.now self.old.ends.now count clause.now result
            self.new.literals.now self.new.ends.now }
    {
        let number = count as usize;
        if self.ends.len() <= number {
            return false;
        }
        let start = start_of(self.view().ends, number);
        let end = start + clause.len();
        if self.literals.len() < end || 4294967295 < end {
            return false;
        }
        copy_in(clause, self.literals, start);
        self.ends[number] = end as u32;
        true
    }
}

// The stretch of the rule room or of the derived room that a clause stands in. The family is a number, as it stands in a hint: the
// definition `look_up` and the documents state it so.
pub fn look_up<'literals>(
    rules: FamilyRooms<'literals, '_>,
    rule_count: u32,
    derived: FamilyRooms<'literals, '_>,
    derived_count: u32,
    family: u32,
    number: u32,
) -> &'literals [i32]
    ensures { (size most size' most' : ℕ) (ruleFamily derivedFamily : List Clause)
        → Holds size most rules.entry.literals.now rules.entry.ends.now rule_count ruleFamily
        → Holds size' most' derived.entry.literals.now derived.entry.ends.now derived_count derivedFamily
        → result.now ≡ look_up ruleFamily derivedFamily family number }
{
    match family {
        1 => rules.clause(rule_count, number),
        4 => derived.clause(derived_count, number),
        _ => &rules.literals[..0],
    }
}
