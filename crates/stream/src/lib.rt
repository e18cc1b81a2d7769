// A run of the tally over an input, with its answer lines on an output. Input comes in blocks of 64 KiB and lines go
// out together, some 250 at a time: a system call a record would cost more than the record. What is written no contract
// says. What is said of a turn is that it leads from the session before it to the session after the records that its block has whole,
// and that what these leave of the block, and behind it the next bytes of the source, is where the next turn begins: no byte is taken
// twice, and none is lost. Which bytes a source gives is known of one in memory and not of standard input.
#![tactic(auto)]

ghost use Rattle.std.specs.Prelude.{◌≡◌, ℕ, List, ◌++◌, ◌+◌, ◌≤◌, length};
ghost use Rattle.std.specs.Io.KnownBytes.{Consumes};
ghost use Rattle.paper.specs.Session.{Session};
ghost use Rattle.paper.specs.Inputs.{after as afterRecords};
ghost use Rattle.rooms.specs.Lent.{rooms_in, values_in, Keeps, SameRooms, KeptWork};
ghost use Rattle.turns.specs.Turns.{waiting, Within, Begins};
ghost use Rattle.stream.specs.Taken.{taken, unanswered, Standing};

use rooms::{Rooms, RoomsMut};
use std::io::{Print, Read};
use turns::State;

// How a run went.
#[derive(Clone, Copy)]
pub struct Finish {
    // how many bytes of its limit it did not read
    pub unread: u64,
    // every line was written; no value stands beside it
    pub written: bool,
}

// Answers the records that stand whole in the buffer, as many as one call takes. Only where there is none is anything moved or
// read. A turn is asked for only where a session is kept, so that what is said of a turn holds of every one of a run.
fn turn<R: Read, W: Print>(
    source: &mut R,
    sink: &W,
    state: State,
    rooms: &mut RoomsMut,
    input: &mut [u8; 65536],
    out: &mut [u8; 16384],
) -> State
    requires standing { Standing state.tally (rooms_in rooms.old) (values_in rooms.old) }
    requires within { Within state (length input.old) }
    ensures same { SameRooms rooms.old rooms.new }
    ensures kept { KeptWork rooms.old rooms.new }
    ensures less { result.unread ≤ state.unread }
    ensures waits { Within result (length input.new)
        × Begins (waiting result input.new) (unanswered state input.old) }
    ensures came { (read : List ℕ)
        × Consumes (R.remaining source.old) (R.remaining source.new) read
        × (length read + result.unread ≡ state.unread)
        × (waiting result input.new ≡ unanswered state input.old ++ read) }
    ensures turned { (s : Session) → Keeps state.tally rooms.old s
        → (result.place ≡ state.place + length (taken state input.old))
        × Keeps result.tally rooms.new (afterRecords s (taken state input.old)) }
{
    let block = slices::part(input, state.start, state.end);
    let done = blocks::run_block(state.tally, rooms, block, state.last, state.place, out);
    let written = sink.write_all(slices::part(out, 0, done.written)).is_ok();
    let next = turns::after(state, done, written);
    if next.over || 0 < done.consumed {
        return next;
    }
    turns::refill(source, next, input)
}

// One run from a fresh session, over at most so many bytes of an input. A proved loop has to end, and nothing says that an
// input does: so the turns are counted, up to a number that no run reaches.
pub fn run<R: Read, W: Print>(source: &mut R, sink: &W, limit: u64) -> Finish
    ensures within { result.unread ≤ limit }
    ensures came { (read : List ℕ)
        × Consumes (R.remaining source.old) (R.remaining source.new) read
        × (length read + result.unread ≡ limit) }
{
    // Made where they stand: Rattle's own compiler would keep what `Rooms::fresh` hands back beside a copy of it.
    let mut rooms = Rooms {
        rules: [0; 16384],
        rule_ends: [0; 2048],
        wishes: [0; 8192],
        wish_ends: [0; 512],
        wish_weights: [0; 512],
        derived: [0; 16384],
        derived_ends: [0; 4096],
        inputs: [0; 8192],
        counter_ends: [0; 128],
        left: [0; 512],
        outputs: [0; 8192],
        low: [0; 4001],
        high: [0; 65536],
    };
    let mut lent = RoomsMut {
        rules: &mut rooms.rules,
        rule_ends: &mut rooms.rule_ends,
        wishes: &mut rooms.wishes,
        wish_ends: &mut rooms.wish_ends,
        wish_weights: &mut rooms.wish_weights,
        derived: &mut rooms.derived,
        derived_ends: &mut rooms.derived_ends,
        inputs: &mut rooms.inputs,
        counter_ends: &mut rooms.counter_ends,
        left: &mut rooms.left,
        outputs: &mut rooms.outputs,
        low: &mut rooms.low,
        high: &mut rooms.high,
    };
    let mut input = [0u8; 65536];
    let mut out = [0u8; 16384];
    let mut state = turns::fresh(limit);
    for _turn in 0..u64::MAX {
        if state.over {
            break;
        }
        state = turn(source, sink, state, &mut lent, &mut input, &mut out);
    }
    Finish {
        unread: state.unread,
        written: state.written,
    }
}
