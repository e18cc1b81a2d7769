// A run over a block of an input, which may be any part of it: the records that the block has whole are answered one after the
// other, and their lines stand in a lent buffer. A law of the paper says that a run may be cut so at any place.
#![tactic(auto)]

ghost use Rattle.std.specs.Prelude.{◌≡◌, [], ◌∷◌, ◌+◌, ◌*◌, ◌^◌, ◌<◌, ◌≤◌, length, drop};
ghost use Rattle.std.proofs.lemmas.List.Edits.{sets};
ghost use Rattle.paper.specs.Session.{Session};
ghost use Rattle.paper.specs.Inputs.{front, record_in, records_in, after, text};
ghost use Rattle.rooms.specs.Lent.{rooms_in, values_in, Keeps, SameRooms, KeptWork};
ghost use Rattle.blocks.specs.Blocks.{Moved, CarriedOn, most_records, taken_from, lines_in, progress_of};

use paper::{Answer, Front, Numbers, Outcome, Reason, Tally};
use rooms::RoomsMut;

// How far a run has come.
#[derive(Clone, Copy)]
pub struct Progress {
    pub tally: Tally,
    // how many bytes of the block the records took
    pub consumed: usize,
    // the place of the next record
    pub place: u64,
    // how many bytes of the buffer the lines took
    pub written: usize,
    // the run has ended with 10; no value stands beside it
    pub stopped: bool,
}

// Answers the record of this size that stands whole where the run has come to, and puts its line behind the others.
fn answer_next(
    progress: Progress,
    rooms: &mut RoomsMut,
    block: &[u8],
    size: usize,
    out: &mut [u8],
) -> Progress
    requires block_value { front (drop progress.consumed block.now) ≡ Front.Whole size }
    requires place_bound { progress.place + 1 < 2 ^ 64 }
    requires written_in_bounds { progress.written + 65 ≤ length out.old }
    ensures same { SameRooms rooms.old rooms.new }
    ensures kept { KeptWork rooms.old rooms.new }
    ensures moved { Moved progress result size (length out.old) (length out.new) }
    ensures ran { CarriedOn progress.tally
        (rooms_in rooms.old) (values_in rooms.old)
        progress.place progress.consumed progress.written out.old
        (record_in size (drop progress.consumed block.now) ∷ []) result out.new
        (rooms_in rooms.new) (values_in rooms.new) }
{
    let at = progress.consumed;
    let kind = frames::kind_at(block, at);
    let payload = frames::payload_at(block, at, size);
    let Outcome { tally, answer } = records::answer(progress.tally, rooms, kind, payload);
    let numbers = Numbers::from(answer);
    let written = lines::put_line(out, progress.written, progress.place, kind, numbers);
    Progress {
        tally,
        consumed: at + 4 + size,
        place: progress.place + 1,
        written,
        stopped: false,
    }
}

// Answers records as long as one stands whole, but no more than `most`.
fn run_records(
    tally: Tally,
    rooms: &mut RoomsMut,
    block: &[u8],
    most: u64,
    place: u64,
    out: &mut [u8],
) -> Progress
    requires most_bound { place + most < 2 ^ 64 }
    requires most_in_bounds { 65 * most ≤ length out.old }
    ensures same { SameRooms rooms.old rooms.new }
    ensures kept { KeptWork rooms.old rooms.new }
    ensures short { result.written ≤ 65 * most }
    ensures ran { CarriedOn tally
        (rooms_in rooms.old) (values_in rooms.old)
        place 0 0 out.old (records_in most block.now) result out.new
        (rooms_in rooms.new) (values_in rooms.new) }
{
    let mut progress = Progress {
        tally,
        consumed: 0,
        place,
        written: 0,
        stopped: false,
    };
    for _answered in 0..most {
        let Front::Whole(size) = frames::front(block, progress.consumed) else {
            return progress;
        };
        progress = answer_next(progress, rooms, block, size, out);
    }
    progress
}

// The place of the last record, and of an end behind it, has to be a number of 64 bits.
fn most_records(place: u64) -> u64
    ensures { result ≡ most_records place }
{
    (u64::MAX - place).min(251)
}

// The buffer takes 252 lines. `last` says that nothing follows the block.
pub fn run_block(
    tally: Tally,
    rooms: &mut RoomsMut,
    block: &[u8],
    last: bool,
    place: u64,
    out: &mut [u8; 16384],
) -> Progress
    ensures same { SameRooms rooms.old rooms.new }
    ensures kept { KeptWork rooms.old rooms.new }
    ensures ran { (s : Session) → Keeps tally rooms.old s
        → (result ≡ progress_of last place s block.now (taken_from place block.now))
        × (out.new ≡ sets out.old 0 (text (lines_in last place s block.now (taken_from place block.now))))
        × Keeps result.tally rooms.new (after s (taken_from place block.now)) }
{
    let done = run_records(tally, rooms, block, most_records(place), place, out);
    if !frames::stops(block, done.consumed, last) {
        return done;
    }
    let none = Numbers::from(Answer::from(Reason::NoRecord));
    let written = lines::put_line(out, done.written, done.place, 0, none);
    Progress {
        written,
        stopped: true,
        ..done
    }
}
