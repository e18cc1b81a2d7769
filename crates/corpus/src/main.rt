// Many runs in one. Standard input is a container: a sequence of runs, each a 4-byte little-endian length and then so many bytes,
// which are the run's input. Each run starts from a fresh session, and a heading with its number stands before its answer lines.
#![tactic(auto)]

use std::io::{Print, Read};

// Answers whether there was a whole run, and its lines were written. A run that stops early leaves bytes behind, which are not the
// next one's length.
fn run_next<R: Read, W: Print>(source: &mut R, sink: &W, number: u64) -> bool {
    let mut bytes = [0u8; 4];
    if buffers::read_full(source, &mut bytes) < 4 {
        return false;
    }
    if println!(sink; "run {number}").is_err() {
        return false;
    }
    let finish = stream::run(source, sink, u64::from(u32::from_le_bytes(bytes)));
    let missing = buffers::skip(source, finish.unread);
    finish.written && missing == 0
}

// A proved loop has to end, and nothing says that a container does: the numbers do.
fn main(rt: HostRuntime) {
    let mut source = rt.stdin();
    let sink = rt.stdout();
    for number in 1..u64::MAX {
        if !run_next(&mut source, &sink, number) {
            break;
        }
    }
}
