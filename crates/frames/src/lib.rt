// What stands in the bytes of a block from a place on: a whole record or none, and the parts of a record. Every function is safe
// at any place; past the block's end there are no bytes.
#![tactic(auto)]

ghost use Rattle.std.specs.Prelude.{◌≡◌, ◌-◌, take, drop};
ghost use Rattle.paper.specs.Records.{number};
ghost use Rattle.paper.specs.Inputs.{front};
ghost use Rattle.frames.specs.Frames.{stops};

use paper::Front;
use payload::rest;

pub fn front(block: &[u8], at: usize) -> Front
    ensures { result ≡ front (drop at block.now) }
{
    let bytes = rest(block, at);
    if bytes.len() < 4 {
        return Front::Short;
    }
    match payload::number_of_four(bytes, 0) as usize {
        length if !(2..=4096).contains(&length) => Front::Wrong,
        length if bytes.len() < 4 + length => Front::Short,
        length => Front::Whole(length),
    }
}

pub fn kind_at(block: &[u8], at: usize) -> u32
    ensures { result ≡ number (take 2 (drop 4 (drop at block.now))) }
{
    payload::number_of_two(rest(block, at), 4)
}

// The very part of the block that the payload stands in, of a record of this length: the kind takes two bytes of what the length
// counts, and where there are fewer bytes, it is all of them, as on paper.
pub fn payload_at(block: &[u8], at: usize, length: usize) -> &[u8]
    ensures { result.now ≡ take (length - 2) (drop 6 (drop at block.now)) }
{
    let bytes = rest(rest(block, at), 6);
    &bytes[..length.saturating_sub(2).min(bytes.len())]
}

pub fn stops(block: &[u8], at: usize, last: bool) -> bool
    ensures { result ≡ stops last (drop at block.now) }
{
    match front(block, at) {
        Front::Short => last && at < block.len(),
        Front::Wrong => true,
        Front::Whole(_) => false,
    }
}
