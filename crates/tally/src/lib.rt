// The public face: one record to one answer, with the tally updated where the caller keeps it. The work is done by value in
// `records`; a thin function hands it a copy of the tally and stores what comes back. `answer` is for callers in Rattle,
// `answer_numbered` for the exports to C in `tally_c`: no enum can go there, so that it hands back the three numbers of the answer
// line. Both are safe on rooms, tallies and payloads of any content; what they say, they say of each session that a caller keeps.
#![tactic(auto)]

ghost use Rattle.std.specs.Prelude.{◌≡◌};
ghost use Rattle.paper.specs.Session.{Session};
ghost use Rattle.paper.specs.Answers.{numbers};
ghost use Rattle.paper.specs.Records.{record_answer, record_next};
ghost use Rattle.rooms.specs.Lent.{Keeps, SameRooms, KeptWork};

use paper::{Answer, Numbers, Tally};
use rooms::RoomsMut;

// What a record leaves of the tally, and what it is answered.
#[derive(Clone, Copy)]
pub struct Numbered {
    pub tally: Tally,
    pub numbers: Numbers,
}

// Kind and payload stand apart, as in C and as `records` needs them.
pub fn answer(tally: &mut Tally, rooms: &mut RoomsMut, kind: u32, payload: &[u8]) -> Answer
    ensures same { SameRooms rooms.old rooms.new }
    ensures kept { KeptWork rooms.old rooms.new }
    ensures answered { (s : Session) → Keeps tally.old rooms.old s
        → (result ≡ record_answer s (record { kind = kind; payload = payload.now }))
        × Keeps tally.new rooms.new (record_next s (record { kind = kind; payload = payload.now })) }
{
    let out = records::answer(*tally, rooms, kind, payload);
    *tally = out.tally;
    out.answer
}

pub fn answer_numbered(tally: Tally, rooms: &mut RoomsMut, kind: u32, payload: &[u8]) -> Numbered
    ensures same { SameRooms rooms.old rooms.new }
    ensures kept { KeptWork rooms.old rooms.new }
    ensures answered { (s : Session) → Keeps tally rooms.old s
        → (result.numbers ≡ numbers (record_answer s (record { kind = kind; payload = payload.now })))
        × Keeps result.tally rooms.new (record_next s (record { kind = kind; payload = payload.now })) }
{
    let out = records::answer(tally, rooms, kind, payload);
    Numbered {
        tally: out.tally,
        numbers: Numbers::from(out.answer),
    }
}
