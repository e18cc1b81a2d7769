// The literals of a clause in a text, from behind its weight to the 0 that ends it. The work is in proportion to the bytes passed.
#![tactic(auto)]

ghost use Rattle.literals.specs.Reading.{Reads, number_of, stop_of};

use paper::Reason;

// Where the reading of a clause's literals stops.
#[derive(Clone, Copy, PartialEq, Eq)]
pub struct Stop {
    // of the word that stopped it, or the text's length
    pub position: usize,
    // how many literals stand before, with those that the room has no place for, as `Reads` has it
    pub count: usize,
    // where that word ends, or the text's length
    pub next: usize,
}

// A clause without its 0: there is a word that is no literal, or the text ends.
#[derive(Clone, Copy, PartialEq, Eq)]
pub struct Fault {
    pub reason: Reason,
    pub stop: Stop,
}

// Past the text's end there are no words. More literals than the room has are counted, and not kept.
pub fn read_literals(text: &[u8], at: usize, room: &mut [i32]) -> Result<Stop, Fault>
    ensures { Reads text.now at room.old (number_of result) (stop_of result).position (stop_of result).count
        (stop_of result).next room.new }
{
    let mut place = at;
    let mut count: usize = 0;
    // No `for`: `next_word` tells where the next word begins.
    while let Some(found) = words::next_word(text, place) {
        let stop = Stop {
            position: found.start,
            count,
            next: found.end,
        };
        let Some(literal) = numerals::read_literal(&text[found.start..found.end]) else {
            return Err(Fault {
                reason: Reason::NoNumber,
                stop,
            });
        };
        if literal == 0 {
            return Ok(stop);
        }
        slices::store(room, count, literal);
        count += 1;
        place = found.end;
    }
    let end = text.len();
    Err(Fault {
        reason: Reason::CutShort,
        stop: Stop {
            position: end,
            count,
            next: end,
        },
    })
}
