// Many texts in one. Standard input is a container: a sequence of texts, each with the length of the room that is lent for its
// records, the length of the text, 4 bytes little-endian each, and then the text's bytes. For each a line says the text's number,
// the three numbers of the answer, and the checksum of the whole room. A length above what this program has room for ends it.
#![tactic(auto)]

use paper::TextAnswer;
use std::io::{Print, Read};

// The greatest prime below 65,536.
const MODULUS: u32 = 65521;

// Never 0, so that a byte that the reader leaves as it was shows in the checksum.
fn mark(place: usize) -> u8 {
    (place % 255 + 1) as u8
}

fn fill(room: &mut [u8]) {
    for (place, byte) in room.iter_mut().enumerate() {
        *byte = mark(place);
    }
}

// Adler-32: the bytes summed from 1, and the sums of each step summed.
fn checksum(bytes: &[u8]) -> u32 {
    let mut sum: u32 = 1;
    let mut sums: u32 = 0;
    for byte in bytes {
        sum = (sum + u32::from(*byte)) % MODULUS;
        sums = (sums + sum) % MODULUS;
    }
    sums * 65536 + sum
}

fn write_line<W: Print>(sink: &W, number: u64, answer: TextAnswer, sum: u32) -> bool {
    println!(sink;
        "{number} {} {} {} {sum}",
        answer.number, answer.position, answer.length
    )
    .is_ok()
}

// A text that the container ends inside of has the bytes that are there.
fn answer_text<R: Read, W: Print>(
    source: &mut R,
    sink: &W,
    number: u64,
    text: &mut [u8],
    room: &mut [u8],
) -> bool {
    let got = buffers::read_full(source, text);
    fill(room);
    let answer = wcnf::read_text(&text[..got], room);
    let sum = checksum(room);
    write_line(sink, number, answer, sum)
}

// Answers whether there was a text, and its line was written.
fn answer_next<R: Read, W: Print>(
    source: &mut R,
    sink: &W,
    number: u64,
    texts: &mut [u8],
    rooms: &mut [u8],
) -> bool {
    // Both lengths in one read: a source that keeps its messages apart may give them as one.
    let mut head = [0u8; 8];
    if buffers::read_full(source, &mut head) < 8 {
        return false;
    }
    let lengths = u64::from_le_bytes(head);
    let room = (lengths % 4294967296) as usize;
    let length = (lengths / 4294967296) as usize;
    if rooms.len() < room || texts.len() < length {
        return false;
    }
    answer_text(
        source,
        sink,
        number,
        &mut texts[..length],
        &mut rooms[..room],
    )
}

// A proved loop has to end, and nothing says that a container does: the numbers do.
fn main(rt: HostRuntime) {
    let mut source = rt.stdin();
    let sink = rt.stdout();
    let mut texts = [0u8; 20000];
    let mut rooms = [0u8; 65536];
    for number in 1..u64::MAX {
        if !answer_next(&mut source, &sink, number, &mut texts, &mut rooms) {
            return;
        }
    }
}
