// A lent buffer that an input comes in: its filling, and its filling again, where what is left of it goes before what is
// read next. What is said is where the bytes go, that they are those that the source gave up, in its order, and that what was left is
// kept. Of a source whose bytes are not known, as standard input, the middle part says nothing.
#![tactic(auto)]

ghost use Rattle.std.specs.Prelude.{◌≡◌, ℕ, List, ◌+◌, ◌-◌, ◌^◌, ◌≤◌, ◌<◌, length, take, drop};
ghost use Rattle.std.specs.Io.KnownBytes.{Consumes};
ghost use Rattle.slices.specs.Slices.{part_of};

use std::io::Read;

// The bytes of a part go to the front; the answer is how many they are.
fn move_to_front(bytes: &mut [u8], start: usize, end: usize) -> usize
    ensures { start ≤ end → end ≤ length bytes.old
        → (result ≡ end - start) × (take result bytes.new ≡ part_of bytes.old start end) }
{
    let end = end.min(bytes.len());
    let start = start.min(end);
    bytes.copy_within(start..end, 0);
    end - start
}

// How many bytes came: none where the read failed.
fn read_some<R: Read>(source: &mut R, bytes: &mut [u8]) -> usize
    ensures within { result ≤ length bytes.old }
    ensures came { Consumes (R.remaining source.old) (R.remaining source.new) (take result bytes.new) }
{
    source.read(bytes).unwrap_or(0)
}

// Reads once, behind so many bytes of the buffer, and answers how many came: none where the input has ended, where the read
// fails, and where none may come.
fn read_from<R: Read>(source: &mut R, buffer: &mut [u8], from: usize, most: u64) -> usize
    ensures within { (result ≤ most) × (from + result < 2 ^ 64) }
    ensures kept { from ≤ length buffer.old
        → (take from buffer.new ≡ take from buffer.old) × (from + result ≤ length buffer.old) }
    ensures came { Consumes (R.remaining source.old) (R.remaining source.new)
        (take result (drop from buffer.new)) }
{
    if buffer.len() < from {
        return 0;
    }
    let room = most.min((buffer.len() - from) as u64) as usize;
    let end = from + room;
    read_some(source, &mut buffer[from..end])
}

// Reads until the buffer is full, and answers how many bytes came: fewer where the input ended before, or a read failed.
pub fn read_full<R: Read>(source: &mut R, buffer: &mut [u8]) -> usize
    ensures within { result ≤ length buffer.old }
    ensures came { Consumes (R.remaining source.old) (R.remaining source.new) (take result buffer.new) }
{
    let mut at: usize = 0;
    // No `for`: how far a turn goes, the read tells.
    while at < buffer.len() {
        let got = read_from(source, buffer, at, u64::MAX);
        if got == 0 {
            return at;
        }
        at += got;
    }
    at
}

// What a buffer has after it was filled again.
#[derive(Clone, Copy)]
pub struct Filled {
    // where its bytes end; they start at its front
    pub end: usize,
    // how many of them were read
    pub got: u64,
}

// The bytes from `start` to `end` go to the front, and what is read next, at most so many bytes, stands behind them.
pub fn refill<R: Read>(
    source: &mut R,
    bytes: &mut [u8],
    start: usize,
    end: usize,
    most: u64,
) -> Filled
    ensures within { result.got ≤ most }
    ensures kept { start ≤ end → end ≤ length bytes.old
        → (result.end ≡ (end - start) + result.got) × (result.end ≤ length bytes.old)
        × (take (end - start) bytes.new ≡ part_of bytes.old start end) }
    ensures came { Consumes (R.remaining source.old) (R.remaining source.new)
        (take result.got (drop (result.end - result.got) bytes.new)) }
{
    let rest = move_to_front(bytes, start, end);
    let got = read_from(source, bytes, rest, most);
    Filled {
        end: rest + got,
        got: got as u64,
    }
}

// Reads so many bytes of an input and drops them; the answer is how many of them did not come.
pub fn skip<R: Read>(source: &mut R, count: u64) -> u64
    ensures within { result ≤ count }
    ensures came { (dropped : List ℕ)
        × Consumes (R.remaining source.old) (R.remaining source.new) dropped
        × (length dropped + result ≡ count) }
{
    let mut space = [0u8; 65536];
    let mut left = count;
    // No `for`: how far a turn goes, the read tells.
    while 0 < left {
        let got = read_from(source, &mut space, 0, left) as u64;
        if got == 0 {
            return left;
        }
        left -= got;
    }
    left
}
