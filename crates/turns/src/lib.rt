// Where a run over an input stands between two turns: the tally, the place of the next record, and which bytes of the buffer no record
// has taken yet. What is left of a block goes before what is read next, so that no byte is taken twice and none is lost.
#![tactic(auto)]

ghost use Rattle.std.specs.Prelude.{◌≡◌, ℕ, List, ◌++◌, ◌+◌, length};
ghost use Rattle.std.specs.Io.KnownBytes.{Consumes};
ghost use Rattle.turns.specs.Turns.{fresh, waiting, Within, Begins, ahead, ends, onward, Refilled};

use blocks::Progress;
use paper::Tally;
use std::io::Read;

// Where a run stands between two turns.
#[derive(Clone, Copy)]
pub struct State {
    pub tally: Tally,
    // the place of the next record
    pub place: u64,
    // the bytes of the buffer that no record has taken yet: from here
    pub start: usize,
    // to here
    pub end: usize,
    // how many bytes the run may still read
    pub unread: u64,
    // nothing follows what the buffer has; no value stands beside it
    pub last: bool,
    // every line was written; no value stands beside it
    pub written: bool,
    // no turn is to follow; no value stands beside it
    pub over: bool,
}

pub fn fresh(limit: u64) -> State
    ensures { result ≡ fresh limit }
{
    State {
        tally: Tally::default(),
        place: 1,
        start: 0,
        end: 0,
        unread: limit,
        last: false,
        written: true,
        over: false,
    }
}

// A block gives no more bytes than it has, and then both bounds are met: they make the sum safe without a word on the block.
fn ahead(start: usize, consumed: usize, end: usize) -> usize
    ensures { result ≡ ahead start consumed end }
{
    start.saturating_add(consumed).min(end)
}

// The last block has no record whole and ends a run, with 10 or without.
fn ends(stopped: bool, written: bool, last: bool, consumed: usize) -> bool
    ensures { result ≡ ends stopped written last consumed }
{
    stopped || !written || last && consumed == 0
}

// Where a block leads to.
pub fn after(state: State, done: Progress, written: bool) -> State
    ensures { result ≡ onward state done written }
{
    State {
        tally: done.tally,
        place: done.place,
        start: ahead(state.start, done.consumed, state.end),
        written,
        over: ends(done.stopped, written, state.last, done.consumed),
        ..state
    }
}

// What is left of a block goes before what is read next, so that the record that it begins stands whole.
pub fn refill<R: Read>(source: &mut R, state: State, input: &mut [u8]) -> State
    ensures stands { Refilled state result }
    ensures kept { Within state (length input.old)
        → Within result (length input.new) × Begins (waiting result input.new) (waiting state input.old) }
    ensures came { Within state (length input.old)
        → (read : List ℕ)
        × Consumes (R.remaining source.old) (R.remaining source.new) read
        × (length read + result.unread ≡ state.unread)
        × (waiting result input.new ≡ waiting state input.old ++ read) }
{
    let filled = buffers::refill(source, input, state.start, state.end, state.unread);
    State {
        start: 0,
        end: filled.end,
        unread: state.unread - filled.got,
        last: filled.got == 0,
        ..state
    }
}
