// The older WCNF text: from its bytes to records in a lent room, or to a number with the place of the fault. The work is in
// proportion to the text and to the room, whose bytes behind the records are cleared.
#![tactic(auto)]

ghost use Rattle.std.specs.Prelude.{◌≡◌, not, ◌&&◌, [], ◌∷◌, ℕ, ◌≤◌, ◌<◌, eqb, leb, length, replicate, IsOk, IsSome};
ghost use Rattle.std.specs.Option.{MatchOption};
ghost use Rattle.paper.specs.Sizes.{most_weight};
ghost use Rattle.paper.specs.Clauses.{Clause};
ghost use Rattle.paper.specs.Reasons.{reason_number, refusal_number};
ghost use Rattle.paper.specs.Texts.{between, clause_refusal, read_on, open_record, read_text, fault_answer, text_answer, text_room};
ghost use Rattle.values.specs.Lent.{bytes, KeptValues};
ghost use Rattle.words.specs.Words.{words_at};
ghost use Rattle.wcnf.specs.Steps.{OneClause, Came};

use paper::{Header, MOST_VARIABLES, MOST_WEIGHT, Reason, TextAnswer};
use values::ValueRoomsMut;
use words::Found;

const MOST_TEXT: usize = 16384;

// Why a text is refused, and where.
#[derive(Clone, Copy, PartialEq, Eq)]
pub struct Fault {
    pub reason: Reason,
    pub position: usize,
}

impl From<literals::Fault> for Fault {
    ghost from_gives = { λ broken given. given ≡ record { reason = broken.reason; position = broken.stop.position } };

    fn from(broken: literals::Fault) -> Fault {
        Fault {
            reason: broken.reason,
            position: broken.stop.position,
        }
    }
}

// Where a reading stands behind a clause.
#[derive(Clone, Copy, Debug, PartialEq, Eq)]
pub struct Step {
    // where the words go on
    pub next: usize,
    // where the records end; past the room once they do not fit
    pub written: usize,
}

// A weight that makes a wish, and that no wish has.
fn bad_weight(top: u32, weight: u32) -> bool
    ensures { result ≡ (not (eqb weight top) && not (leb 1 weight && leb weight most_weight)) }
{
    weight != top && (weight == 0 || MOST_WEIGHT < weight)
}

// 15 to 18 for a clause that is complete. None stands for more literals than the room has a place for: they are too many.
fn clause_refusal(
    header: Header,
    weight: u32,
    literals: Option<&[i32]>,
    values: &mut ValueRoomsMut,
) -> Result<(), Reason>
    ensures kept { KeptValues values.old values.new }
    ensures within { IsOk result → IsSome literals.entry }
    ensures answer { (size : ℕ) (c : Clause) → MatchOption literals.entry (64 < length c) (λ kept. kept.now ≡ c)
        → bytes values.old ≡ replicate size 0 → header.variables < size
        → refusal_number result ≡ clause_refusal header weight c }
{
    if bad_weight(header.top, weight) {
        return Err(Reason::WrongWeight);
    }
    let kept = literals.ok_or(Reason::TooManyLiterals)?;
    marks::problem_refusal(64, header.variables, kept, values)
}

// One clause, whose weight is a word of the text. Its literals are kept until its 0 tells that it is complete.
fn read_clause(
    text: &[u8],
    word: Found,
    header: Header,
    literals: &mut [i32; 64],
    values: &mut ValueRoomsMut,
    out: &mut [u8],
    at: usize,
) -> Result<Step, Fault>
    requires word { (word.start < word.end) × (word.end ≤ length text.now) }
    requires high_value { (bytes values.old ≡ replicate 2002 0) × (header.variables < 2002) }
    ensures kept { KeptValues values.old values.new }
    ensures one_clause { OneClause text.now header word.start word.end out.old at result out.new }
{
    // Of a weight that is no number, and of a clause that is complete and refused.
    let fault = |reason| Fault {
        reason,
        position: word.start,
    };
    let digits = &text[word.start..word.end];
    let weight = numerals::read_decimal(digits, u32::MAX).ok_or(fault(Reason::NoNumber))?;
    let read = literals::read_literals(text, word.end, literals)?;
    let kept = literals.get(..read.count);
    clause_refusal(header, weight, kept, values).map_err(fault)?;
    let written = output::put_clause(out, at, header.top, weight, kept.unwrap_or_default());
    Ok(Step {
        next: read.next,
        written,
    })
}

// The opening, and then the clauses in their order, from a place of the text on; where their records end.
fn read_clauses(
    text: &[u8],
    from: usize,
    header: Header,
    literals: &mut [i32; 64],
    values: &mut ValueRoomsMut,
    out: &mut [u8],
) -> Result<usize, Fault>
    requires high_value { (bytes values.old ≡ replicate 2002 0) × (header.variables < 2002) }
    ensures { Came (read_on header (length text.now) between (open_record header.variables ∷ [])
        (words_at text.now from)) out.old result out.new }
{
    let mut written = output::put_open(out, 0, header.variables);
    let mut place = from;
    let mut clauses: usize = 0;
    // No `for`: where the next clause begins, the reading of this one tells.
    while let Some(found) = words::next_word(text, place) {
        let step = read_clause(text, found, header, literals, values, out, written)?;
        written = step.written;
        place = step.next;
        clauses += 1;
    }
    if header.clauses as usize != clauses {
        return Err(Fault {
            reason: Reason::WrongCount,
            position: text.len(),
        });
    }
    Ok(written)
}

// The records of a text, in a room that is not cleared yet. The rooms for one clause are this function's own: they are small, and
// made once a text.
fn read_records(text: &[u8], out: &mut [u8]) -> Result<usize, Fault>
    ensures { Came (read_text text.now) out.old result out.new }
{
    let no_header = Fault {
        reason: Reason::NoHeader,
        position: 0,
    };
    if MOST_TEXT < text.len() {
        return Err(no_header);
    }
    let heading = headers::read_header(text).ok_or(no_header)?;
    let header = heading.header;
    if header.variables == 0 || MOST_VARIABLES < header.variables {
        return Err(Fault {
            reason: Reason::WrongVariables,
            position: heading.at,
        });
    }
    let mut literals = [0i32; 64];
    let mut low = [0u8; 2001];
    let mut high = [0u8; 1];
    let mut values = ValueRoomsMut {
        low: &mut low,
        high: &mut high,
    };
    read_clauses(text, heading.end, header, &mut literals, &mut values, out)
}

// A refusal leaves the room all zeros, whatever was put there on the way.
fn refuse(out: &mut [u8], reason: Reason, position: usize) -> TextAnswer
    ensures answer { result ≡ fault_answer (reason_number reason) position }
    ensures room { out.new ≡ replicate (length out.old) 0 }
{
    output::zero_from(out, 0);
    TextAnswer {
        number: reason.number(),
        position,
        length: 0,
    }
}

// A text to records and then zeros, or to zeros and a number with the place of the fault. The C interface has this form of the answer,
// with number 0 where there is no fault.
pub fn read_text(text: &[u8], out: &mut [u8]) -> TextAnswer
    ensures answer { result ≡ text_answer text.now (length out.old) }
    ensures room { out.new ≡ text_room text.now (length out.old) }
    ensures within { result.length ≤ length out.old }
{
    match read_records(text, out) {
        Err(fault) => refuse(out, fault.reason, fault.position),
        Ok(written) => {
            if out.len() < written {
                return refuse(out, Reason::ShortRoom, text.len());
            }
            output::zero_from(out, written);
            TextAnswer {
                number: 0,
                position: text.len(),
                length: written,
            }
        }
    }
}
