// A caller that starts from zeroed arrays, runs the whole worked run from its bytes and weighs its last arrangement. What its lines
// are, byte for byte, and what the weighing answers is proved from the contracts alone: so they can be met together.
#![tactic(auto)]

ghost use Rattle.std.specs.Prelude.{◌≡◌, true, length};
ghost use Rattle.std.proofs.lemmas.List.Edits.{sets};
ghost use Rattle.paper.specs.Sizes.{wish_room};
ghost use Rattle.paper.specs.Session.{Session, tally_of};
ghost use Rattle.paper.specs.Truth.{arranged, meets, cost};
ghost use Rattle.paper.specs.Runs.{Reached};
ghost use Rattle.paper.specs.Inputs.{text};
ghost use Rattle.paper.specs.Worked.{input_bytes};
ghost use Rattle.rooms.specs.Held.{HeldIn, HeldCounters, HeldWeights, wish_family};
ghost use Rattle.caller.specs.Worked.{worked_lines};

use clauses::FamilyRooms;
use paper::Tally;
use rooms::{Rooms, RoomsMut};
use weights::WeightRooms;

// A weighing over a session's rooms, with work rooms of its own.
fn weighed(tally: Tally, rooms: &Rooms, arrangement: &[u8]) -> u64
    ensures { (s : Session) → Reached s → tally ≡ tally_of s
        → HeldIn wish_room rooms.now.wishes rooms.now.wish_ends (wish_family s.sheet.wishes)
        → HeldCounters rooms.now.inputs rooms.now.counter_ends s
        → HeldWeights rooms.now.left rooms.now.outputs s
        → meets s.sheet (arranged arrangement.now) ≡ true
        → result ≡ cost s.sheet (arranged arrangement.now) }
{
    let mut broken = [0u8; 512];
    let mut counts = [0u8; 128];
    let wishes = FamilyRooms {
        literals: &rooms.wishes,
        ends: &rooms.wish_ends,
    };
    let counters = FamilyRooms {
        literals: &rooms.inputs,
        ends: &rooms.counter_ends,
    };
    let weights = WeightRooms {
        wishes: &rooms.left,
        outputs: &rooms.outputs,
    };
    weigh::weigh(
        tally,
        wishes,
        counters,
        weights,
        arrangement,
        &mut broken,
        &mut counts,
    )
}

// What the worked run left.
#[derive(Clone, Copy)]
pub struct Worked {
    // how many bytes its lines took
    pub written: usize,
    // what the arrangement of its line 19 costs, weighed
    pub weight: u64,
}

// The bytes of the worked run.
fn worked_input() -> &'static [u8]
    ensures { result.now ≡ input_bytes }
{
    b"\x06\0\0\0\x01\0\x03\0\0\0\
        \x0a\0\0\0\x02\0\x01\0\0\0\x02\0\0\0\
        \x0a\0\0\0\x02\0\x02\0\0\0\x03\0\0\0\
        \x0a\0\0\0\x02\0\x01\0\0\0\x03\0\0\0\
        \x0a\0\0\0\x03\0\x03\0\0\0\xff\xff\xff\xff\
        \x0a\0\0\0\x03\0\x02\0\0\0\xfe\xff\xff\xff\
        \x0a\0\0\0\x03\0\x04\0\0\0\xfd\xff\xff\xff\
        \x26\0\0\0\x04\0\x02\0\0\0\xd1\x07\0\0\xd2\x07\0\0\x02\0\0\0\0\0\0\0\x02\0\0\0\x01\0\0\0\x01\0\0\0\0\0\0\0\
        \x06\0\0\0\x05\0\0\0\0\0\
        \x26\0\0\0\x04\0\x02\0\0\0\xd1\x07\0\0\xd3\x07\0\0\x02\0\0\0\0\0\0\0\x02\0\0\0\x02\0\0\0\x01\0\0\0\x02\0\0\0\
        \x06\0\0\0\x05\0\x01\0\0\0\
        \x3e\0\0\0\x04\0\x02\0\0\0\xa2\x0f\0\0\xd3\x07\0\0\x02\0\0\0\x02\0\0\0\x01\0\0\0\x01\0\0\0\x01\0\0\0\x02\0\0\0\x02\0\0\0\0\0\0\0\x02\0\0\0\x01\0\0\0\x03\0\0\0\x02\0\0\0\
        \x06\0\0\0\x05\0\x02\0\0\0\
        \x03\0\0\0\x06\0\x03\
        \x0a\0\0\0\x03\0\x05\0\0\0\x03\0\0\0\
        \x03\0\0\0\x06\0\x03\
        \x1e\0\0\0\x04\0\x02\0\0\0\xd3\x07\0\0\xd4\x07\0\0\x02\0\0\0\x02\0\0\0\x02\0\0\0\x03\0\0\0\
        \x06\0\0\0\x05\0\x03\0\0\0\
        \x03\0\0\0\x06\0\x06\
        \x06\0\0\0\x05\0\0\0\0\0\
        \x03\0\0\0\x06\0\x01"
}

pub fn worked_run(out: &mut [u8; 16384]) -> Worked
    ensures { (out.new ≡ sets out.old 0 (text worked_lines)) × (result.written ≡ length (text worked_lines)) × (result.weight ≡ 6) }
{
    let mut rooms = Rooms::fresh();
    let mut lent = RoomsMut {
        rules: &mut rooms.rules,
        rule_ends: &mut rooms.rule_ends,
        wishes: &mut rooms.wishes,
        wish_ends: &mut rooms.wish_ends,
        wish_weights: &mut rooms.wish_weights,
        derived: &mut rooms.derived,
        derived_ends: &mut rooms.derived_ends,
        inputs: &mut rooms.inputs,
        counter_ends: &mut rooms.counter_ends,
        left: &mut rooms.left,
        outputs: &mut rooms.outputs,
        low: &mut rooms.low,
        high: &mut rooms.high,
    };
    let records = worked_input();
    let done = blocks::run_block(Tally::default(), &mut lent, records, true, 1, out);
    let arrangement = [6u8];
    Worked {
        written: done.written,
        weight: weighed(done.tally, &rooms, &arrangement),
    }
}
