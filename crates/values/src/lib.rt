// The values of variables in two lent rooms. Only `at`, `put` and `view` see two rooms; all else speaks of one list, the bytes of both.
#![tactic(auto)]

ghost use Rattle.std.specs.Prelude.{◌≡◌, get_or, set};
ghost use Rattle.paper.specs.Clauses.{variable};
ghost use Rattle.paper.specs.Derivation.{is, assign as assignment};
ghost use Rattle.values.specs.Values.{code, literal_in, assigned_in, unassigned_in};
ghost use Rattle.values.specs.Lent.{bytes, bytes_in, known, SameValues};

// The two rooms to read, a byte to a variable: 0 unassigned, 1 true, 2 false. One room for all would pass 64 KiB.
#[derive(Clone, Copy)]
pub struct ValueRooms<'a> {
    pub low: &'a [u8],
    pub high: &'a [u8],
}

// The two rooms to write. No generic pair of rooms, for its fields would have no names: see `clauses::FamilyRoomsMut`.
#[derive(Drop)]
pub struct ValueRoomsMut<'a> {
    pub low: &'a mut [u8],
    pub high: &'a mut [u8],
}

// The byte of a literal's variable where the literal has this truth.
pub fn byte_for(literal: i32, truth: bool) -> u8
    ensures { result ≡ code (is (assignment literal truth).value) }
{
    if variables::is_negative(literal) != truth {
        1
    } else {
        2
    }
}

impl ValueRooms<'_> {
    // The byte of a variable; 0 where it has no place.
    pub fn at(self, variable: u32) -> u8
        ensures { result ≡ get_or (bytes_in self.entry) variable 0 }
    {
        let place = variable as usize;
        match self.low.get(place) {
            Some(byte) => *byte,
            None => self.high.get(place - self.low.len()).copied().unwrap_or(0),
        }
    }

    // The truth of a literal, none where it is unassigned.
    pub fn value(self, literal: i32) -> Option<bool>
        ensures { known result ≡ literal_in (bytes_in self.entry) literal }
    {
        let byte = self.at(variables::variable_of(literal));
        if byte == 0 {
            return None;
        }
        Some((byte == 1) != variables::is_negative(literal))
    }
}

impl ValueRoomsMut<'_> {
    // The rooms as they are now, to read.
    pub fn view(&self) -> ValueRooms<'_>
        ensures { (result.low.now ≡ self.now.low.now) × (result.high.now ≡ self.now.high.now) }
    {
        ValueRooms {
            low: self.low,
            high: self.high,
        }
    }

    // A variable that has no place is left alone.
    pub fn put(&mut self, variable: u32, byte: u8)
        ensures same { SameValues self.old self.new }
        ensures put { bytes self.new ≡ set (bytes self.old) variable byte }
    {
        let place = variable as usize;
        if place < self.low.len() {
            self.low[place] = byte;
        } else {
            slices::store(self.high, place - self.low.len(), byte);
        }
    }

    pub fn assign(&mut self, literal: i32, truth: bool)
        ensures same { SameValues self.old self.new }
        ensures assigned { bytes self.new ≡ assigned_in (bytes self.old) (assignment literal truth) }
    {
        let byte = byte_for(literal, truth);
        self.put(variables::variable_of(literal), byte);
    }

    pub fn unassign(&mut self, literal: i32)
        ensures same { SameValues self.old self.new }
        ensures unassigned { bytes self.new ≡ unassigned_in (bytes self.old) (variable literal) }
    {
        self.put(variables::variable_of(literal), 0);
    }
}
