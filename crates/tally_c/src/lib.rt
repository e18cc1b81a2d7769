// The exports for C and C++, as `include/tally.h` declares them: each calls a function of the library and says what that says. The
// work on a record is done by value; `tally_answer` hands it a copy of the tally and stores what comes back.
#![tactic(auto)]

ghost use Rattle.std.specs.Prelude.{◌≡◌, ◌++◌, length};
ghost use Rattle.paper.specs.Session.{Session};
ghost use Rattle.paper.specs.Answers.{numbers};
ghost use Rattle.paper.specs.Records.{record_answer, record_next};
ghost use Rattle.paper.specs.Texts.{text_answer, text_room};
ghost use Rattle.rooms.specs.Kept.{Kept};

use paper::{Numbers, Tally, TextAnswer};
use rooms::RoomsMut;

// In C each room is a pointer of its own, and the payload a pointer and then its length. The rooms are put together here.
#[unsafe(no_mangle)]
pub extern "C" fn tally_answer(
    tally: &mut Tally,
    rules: &mut [i32; 16384],
    rule_ends: &mut [u32; 2048],
    wishes: &mut [i32; 8192],
    wish_ends: &mut [u32; 512],
    wish_weights: &mut [u32; 512],
    derived: &mut [i32; 16384],
    derived_ends: &mut [u32; 4096],
    inputs: &mut [i32; 8192],
    counter_ends: &mut [u32; 128],
    left: &mut [u32; 512],
    outputs: &mut [u32; 8192],
    low: &mut [u8; 4001],
    high: &mut [u8; 65536],
    kind: u32,
    payload: &[u8],
) -> Numbers
    ensures kept { (low.new ≡ low.old) × (high.new ≡ high.old) }
    ensures answered { (s : Session)
        → Kept tally.old
        (record {
          rules = rules.old;
          rule_ends = rule_ends.old;
          wishes = wishes.old;
          wish_ends = wish_ends.old;
          wish_weights = wish_weights.old;
          derived = derived.old;
          derived_ends = derived_ends.old;
          inputs = inputs.old;
          counter_ends = counter_ends.old;
          left = left.old;
          outputs = outputs.old;
        })
        (low.old ++ high.old) s
        → (result ≡ numbers (record_answer s (record { kind = kind; payload = payload.now })))
        × Kept tally.new
        (record {
          rules = rules.new;
          rule_ends = rule_ends.new;
          wishes = wishes.new;
          wish_ends = wish_ends.new;
          wish_weights = wish_weights.new;
          derived = derived.new;
          derived_ends = derived_ends.new;
          inputs = inputs.new;
          counter_ends = counter_ends.new;
          left = left.new;
          outputs = outputs.new;
        })
        (low.new ++ high.new) (record_next s (record { kind = kind; payload = payload.now })) }
{
    let mut rooms = RoomsMut {
        rules,
        rule_ends,
        wishes,
        wish_ends,
        wish_weights,
        derived,
        derived_ends,
        inputs,
        counter_ends,
        left,
        outputs,
        low,
        high,
    };
    let done = tally::answer_numbered(*tally, &mut rooms, kind, payload);
    *tally = done.tally;
    done.numbers
}

// A text to records, as `wcnf::read_text` has it.
#[unsafe(no_mangle)]
pub extern "C" fn tally_read_text(text: &[u8], out: &mut [u8]) -> TextAnswer
    ensures answer { result ≡ text_answer text.now (length out.old) }
    ensures room { out.new ≡ text_room text.now (length out.old) }
{
    wcnf::read_text(text, out)
}
