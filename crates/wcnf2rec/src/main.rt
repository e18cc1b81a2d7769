// The older WCNF text on standard input as records on standard output. A text that is refused gives no records, but a line on
// standard error: the number, the place, and what is wrong there. It ends with status 0 whatever it found in the text, so a caller
// looks whether there are records; only where standard error cannot be written does it end with status 1.
#![tactic(auto)]

use paper::TextAnswer;
use std::io;
use std::io::{Eprint, Print};

// Where a byte of a text stands, both counted from 1.
#[derive(Clone, Copy, Debug, PartialEq, Eq)]
struct Spot {
    line: usize,
    column: usize,
}

// A line ends behind its LF, and a column is a byte.
fn spot_of(text: &[u8], position: usize) -> Spot {
    let mut line: usize = 1;
    let mut column: usize = 1;
    for byte in &text[..position.min(text.len())] {
        column += 1;
        if *byte == b'\n' {
            line += 1;
            column = 1;
        }
    }
    Spot { line, column }
}

// 34 is not among them: the room is long enough for any text. The number is the answer's, which has the form of the C interface; a
// type with a Display would be made of it only to print the same words.
fn reason_of(number: u32) -> &'static str {
    match number {
        14 => "the number of variables is not 1 to 2000",
        15 => "the weight of this wish is not 1 to 1000000",
        16 => "this clause has more than 64 literals",
        17 => "this clause has a literal above the number of variables",
        18 => "this clause has one variable twice",
        31 =>
            "this word is not a decimal number, or it is too large; a minus sign may stand before literals only",
        32 => "the text ends inside a clause, before its 0",
        33 => "the number of clauses is not the one in the header",
        _ => {
            "the text is longer than 16384 bytes, or its header \"p wcnf VARIABLES CLAUSES TOP\" is missing or malformed"
        }
    }
}

fn say_refusal(rt: &HostRuntime, text: &[u8], answer: TextAnswer) -> io::Result<()> {
    let spot = spot_of(text, answer.position);
    let reason = reason_of(answer.number);
    eprintln!(rt;
        "wcnf2rec: refused ({}) at byte {}, line {}, column {}: {reason}",
        answer.number, answer.position, spot.line, spot.column
    )
}

fn convert(rt: &HostRuntime, text: &[u8], room: &mut [u8]) -> io::Result<()> {
    let answer = wcnf::read_text(text, room);
    if answer.number != 0 {
        return say_refusal(rt, text, answer);
    }
    let length = answer.length;
    if rt.stdout().write_all(&room[..length]).is_err() {
        return eprintln!(rt; "wcnf2rec: the records cannot be written");
    }
    Ok(())
}

// One byte past the greatest length is enough to know that a text is too long; the rest is not read. A read that fails ends the
// text. The room holds the records of any text of 16,384 bytes: a header takes 13 bytes with its line end and makes a record of 10;
// a clause of k literals takes 4 + 2k with the blank behind it, which only the last may lack, and its record has 10 + 4k at most.
// So no text makes more than ten bytes for each four of its own.
fn main(rt: HostRuntime) -> io::Result<()> {
    let mut text = [0u8; 16385];
    let mut room = [0u8; 40960];
    let got = buffers::read_full(&mut rt.stdin(), &mut text);
    convert(&rt, &text[..got], &mut room)
}
