// Records as bytes in a lent room. A record is written where it fits as a whole. Else nothing is written, and the end that is
// answered is one past the room: a place like any other, at which nothing fits. So a caller goes on from end to end, and looks once,
// behind the last, whether all of it fitted; by an option it would look at each. The work is in proportion to the bytes written,
// each of which is stored once.
#![tactic(auto)]

ghost use Rattle.std.specs.Prelude.{◌≡◌, ◌++◌, ◌+◌, ◌*◌, ◌-◌, ◌≤◌, leb, length, take, replicate};
ghost use Rattle.paper.specs.Kinds.{kind_number};
ghost use Rattle.paper.specs.Texts.{bytes_for, bits_of, literal_bytes, record_bytes, open_record, clause_record};
ghost use Rattle.lines.specs.Lines.{Written};
ghost use Rattle.output.specs.Puts.{Put, rule_record, wish_record};

use paper::Kind;

// Asked once for a record, before its first store; by division, so that no number of literals makes it wrap.
fn has_place(room: usize, at: usize, bytes: usize, literals: usize) -> bool
    ensures { result ≡ leb (at + (bytes + 4 * literals)) room }
{
    at <= room && bytes <= room - at && literals <= (room - at - bytes) / 4
}

// The four low bytes of a number: a record's length is a number of 64 bits here, and nothing has to be asked of it.
fn put_four(out: &mut [u8], at: usize, number: u64) -> usize
    requires { at + 4 ≤ length out.old }
    ensures { Written out.old at (bytes_for 4 number) result out.new }
{
    let end = at + 4;
    out[at..end].copy_from_slice(&number.to_le_bytes()[..4]);
    end
}

// What a record begins with: the length of what follows it, and the kind, which is one byte and a 0.
fn put_start(out: &mut [u8], at: usize, size: u64, kind: Kind) -> usize
    requires { at + 6 ≤ length out.old }
    ensures { Written out.old at (bytes_for 4 size ++ bytes_for 2 (kind_number kind)) result out.new }
{
    let place = put_four(out, at, size);
    out[place] = kind.number() as u8;
    out[place + 1] = 0;
    place + 2
}

fn put_literals(out: &mut [u8], at: usize, literals: &[i32]) -> usize
    requires { at + 4 * length literals.now ≤ length out.old }
    ensures { Written out.old at (literal_bytes literals.now) result out.new }
{
    let mut place = at;
    for literal in literals {
        place = put_four(out, place, u64::from(literal.cast_unsigned()));
    }
    place
}

pub fn put_open(out: &mut [u8], at: usize, variables: u32) -> usize
    ensures { Put out.old at (record_bytes (open_record variables)) result out.new }
{
    if !has_place(out.len(), at, 10, 0) {
        return out.len() + 1;
    }
    let place = put_start(out, at, 6, Kind::Open);
    put_four(out, place, u64::from(variables))
}

fn put_rule(out: &mut [u8], at: usize, literals: &[i32]) -> usize
    ensures { Put out.old at (record_bytes (rule_record literals.now)) result out.new }
{
    if !has_place(out.len(), at, 6, literals.len()) {
        return out.len() + 1;
    }
    let place = put_start(out, at, 2 + 4 * literals.len() as u64, Kind::Rule);
    put_literals(out, place, literals)
}

fn put_wish(out: &mut [u8], at: usize, weight: u32, literals: &[i32]) -> usize
    ensures { Put out.old at (record_bytes (wish_record weight literals.now)) result out.new }
{
    if !has_place(out.len(), at, 10, literals.len()) {
        return out.len() + 1;
    }
    let place = put_start(out, at, 6 + 4 * literals.len() as u64, Kind::Wish);
    let behind = put_four(out, place, u64::from(weight));
    put_literals(out, behind, literals)
}

pub fn put_clause(out: &mut [u8], at: usize, top: u32, weight: u32, literals: &[i32]) -> usize
    ensures { Put out.old at (record_bytes (clause_record top weight literals.now)) result
        out.new }
{
    if weight == top {
        put_rule(out, at, literals)
    } else {
        put_wish(out, at, weight, literals)
    }
}

// Past the room's end there is nothing to clear.
pub fn zero_from(out: &mut [u8], at: usize)
    ensures { out.new ≡ take at out.old ++ replicate (length out.old - at) 0 }
{
    let from = at.min(out.len());
    out[from..].fill(0);
}
