// The rooms of a session, owned and lent, and what they hold of it. The value rooms hold nothing of it, and its counts stand in the
// tally.
#![tactic(auto)]

ghost use Rattle.std.specs.Prelude.{◌≡◌};
ghost use Rattle.rooms.specs.Owned.{zeros};

// The rooms of a session. Clause k of a family is the stretch of its literals from ends[k - 1], or 0 where k is 0, to ends[k]; what is
// unused is 0.
#[derive(Drop)]
pub struct Rooms {
    // the literals of the rules, and where each rule ends
    pub rules: [i32; 16384],
    pub rule_ends: [u32; 2048],
    // the literals of the wishes, where each wish ends, and its weight
    pub wishes: [i32; 8192],
    pub wish_ends: [u32; 512],
    pub wish_weights: [u32; 512],
    // the literals of the derived clauses, and where each clause ends
    pub derived: [i32; 16384],
    pub derived_ends: [u32; 4096],
    // the inputs of the counters, and where those of each counter end
    pub inputs: [i32; 8192],
    pub counter_ends: [u32; 128],
    // the remaining weight of wish j at j
    pub left: [u32; 512],
    // the remaining weight of output t of counter c at 64 * c + t - 1
    pub outputs: [u32; 8192],
    // work rooms, zeros between calls: the values of the low variables, then those of the high ones
    pub low: [u8; 4001],
    pub high: [u8; 65536],
}

// The same rooms as they are lent, each by a reference of its own, so that a caller may keep them wherever it likes. No method of
// `Rooms` lends them all: whoever called it would not know what was written through it.
#[derive(Drop)]
pub struct RoomsMut<'a> {
    pub rules: &'a mut [i32; 16384],
    pub rule_ends: &'a mut [u32; 2048],
    pub wishes: &'a mut [i32; 8192],
    pub wish_ends: &'a mut [u32; 512],
    pub wish_weights: &'a mut [u32; 512],
    pub derived: &'a mut [i32; 16384],
    pub derived_ends: &'a mut [u32; 4096],
    pub inputs: &'a mut [i32; 8192],
    pub counter_ends: &'a mut [u32; 128],
    pub left: &'a mut [u32; 512],
    pub outputs: &'a mut [u32; 8192],
    pub low: &'a mut [u8; 4001],
    pub high: &'a mut [u8; 65536],
}

impl Rooms {
    // The rooms of a fresh session.
    pub fn fresh() -> Rooms
        ensures { result ≡ zeros }
    {
        Rooms {
            rules: [0; 16384],
            rule_ends: [0; 2048],
            wishes: [0; 8192],
            wish_ends: [0; 512],
            wish_weights: [0; 512],
            derived: [0; 16384],
            derived_ends: [0; 4096],
            inputs: [0; 8192],
            counter_ends: [0; 128],
            left: [0; 512],
            outputs: [0; 8192],
            low: [0; 4001],
            high: [0; 65536],
        }
    }
}
