// How many of a counter's inputs are true. 64 truths at a time go into a word, and the number of ones in it is the answer.
#![tactic(auto)]

ghost use Rattle.std.specs.Prelude.{◌≡◌, ◌≤◌, length};
ghost use Rattle.std.specs.Int.Count.{ones};
ghost use Rattle.truths.specs.Truths.{true_bytes};

fn word_of(truths: &[u8]) -> u64
    requires { length truths.now ≤ 64 }
    ensures { ones result ≡ true_bytes truths.now }
{
    let mut word: u64 = 0;
    for truth in truths {
        word = word * 2 + u64::from(0 < *truth);
    }
    word
}

// A byte an input, for any number of inputs.
pub fn true_inputs(truths: &[u8]) -> usize
    ensures { result ≡ true_bytes truths.now }
{
    let mut count: usize = 0;
    for block in truths.chunks(64) {
        count += word_of(block).count_ones() as usize;
    }
    count
}
