// The answer line of a record, as text in a lent buffer: place, kind, number and two values in decimal, with single spaces and a
// line end. The work is in proportion to the bytes written, each of which is stored once.
#![tactic(auto)]

ghost use Rattle.std.specs.Prelude.{◌≡◌, ◌+◌, ◌≤◌, length};
ghost use Rattle.paper.specs.Inputs.{decimal};
ghost use Rattle.lines.specs.Lines.{word, Written, Printed};

use paper::Numbers;

// What the longest line takes.
const LINE_ROOM: usize = 65;

// The digits are put by hand and not by `Display`, since the contract says what every byte of the lent buffer is. The call stack holds
// those that come later, so that no digit is moved or reversed.
fn put_number(out: &mut [u8], at: usize, number: u64) -> usize
    requires { at + length (decimal number) ≤ length out.old }
    ensures { Written out.old at (decimal number) result out.new }
{
    if number < 10 {
        out[at] = b'0' + number as u8;
        return at + 1;
    }
    let last = put_number(out, at, number / 10);
    out[last] = b'0' + (number % 10) as u8;
    last + 1
}

// A number and the byte that ends it; a place has 20 digits at most.
fn put_word(out: &mut [u8], at: usize, number: u64, end: u8) -> usize
    requires { at + length (word number end) ≤ length out.old }
    ensures { Written out.old at (word number end) result out.new × (result ≤ at + 21) }
{
    let last = put_number(out, at, number);
    out[last] = end;
    last + 1
}

// A number of 32 bits has 10 digits at most: with 20 for each, a line would not be known to fit its room.
fn put_short_word(out: &mut [u8], at: usize, number: u32, end: u8) -> usize
    requires { at + 11 ≤ length out.old }
    ensures { Written out.old at (word number end) result out.new × (result ≤ at + 11) }
{
    put_word(out, at, number as u64, end)
}

// Whether a line fits is asked once and of the longest line: then no store has to ask.
pub fn put_line(out: &mut [u8], at: usize, place: u64, kind: u32, given: Numbers) -> usize
    ensures { Printed out.old at (record { place = place; kind = kind; given = given }) result out.new }
{
    if out.len() < LINE_ROOM || out.len() - LINE_ROOM < at {
        return at;
    }
    let second = put_word(out, at, place, b' ');
    let third = put_short_word(out, second, kind, b' ');
    let fourth = put_short_word(out, third, given.number, b' ');
    let fifth = put_short_word(out, fourth, given.first, b' ');
    put_short_word(out, fifth, given.second, b'\n')
}
