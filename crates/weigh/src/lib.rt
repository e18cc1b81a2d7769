// The weighing of an arrangement over lent rooms: the bound, and the remaining weight on the wish variables and root outputs that
// are true of it. Where the arrangement meets the rules this is its cost, worked out a second way. The public function is safe on
// rooms and tallies of any content; what it says, it says of each reached session that the rooms hold. The two work rooms are
// zeros before and after: a byte to a wish, 1 where it is broken, and a byte to a counter, how many of its inputs are true.
#![tactic(auto)]

ghost use Rattle.std.specs.Prelude.{◌≡◌, true, map, ℕ, ◌+◌, ◌*◌, ◌^◌, ◌<◌, ◌≤◌, length, take, replicate};
ghost use Rattle.paper.specs.Sizes.{wish_room, wish_variable, counter_start, numbers_end};
ghost use Rattle.paper.specs.Clauses.{Truth, only};
ghost use Rattle.paper.specs.Session.{Session, tally_of, remaining};
ghost use Rattle.paper.specs.Truth.{arranged, meets, cost, truth, weight_on};
ghost use Rattle.paper.specs.Runs.{Reached};
ghost use Rattle.truths.specs.Truths.{true_bytes};
ghost use Rattle.weights.specs.Weights.{output_table};
ghost use Rattle.rooms.specs.Held.{HeldIn, HeldCounters, HeldWeights, wish_family};
ghost use Rattle.weigh.specs.Weighing.{wish_sum, output_sum, counter_sum};
ghost use Rattle.weigh.specs.Marks.{Marked, inputs_at, broken_mark, count_mark, truth_in, input_truth, OverWishes, OverCounters};

use clauses::FamilyRooms;
use paper::{FIRST_COUNTER, FIRST_WISH, MOST_WISHES, Tally, Width};
use weights::WeightRooms;

const MOST_INPUTS: usize = 255;

// A work room whose marks end at `count` is all zeros after this.
fn clear(room: &mut [u8], count: u32)
    ensures { (size : ℕ) (f : ℕ → ℕ) → Marked size room.old count f
        → room.new ≡ replicate size 0 }
{
    let end = room.len().min(count as usize);
    room[..end].fill(0);
}

// ── Wishes ──

// Marks one wish where it is broken, and gives the remaining weight of its variable where that is true.
fn weigh_wish(
    count: u32,
    wishes: FamilyRooms,
    left: &[u32],
    arrangement: &[u8],
    broken: &mut [u8],
    number: u32,
) -> u64
    ensures { (result < 2 ^ 32) × ((s : Session) (t : Truth) (f : ℕ → ℕ) (size : ℕ)
        → OverWishes s (arranged arrangement.now) t f size count
        wishes.entry.literals.now wishes.entry.ends.now left.now
        → number < count → Marked size broken.old number (broken_mark t)
        → Marked size broken.new (number + 1) (broken_mark t)
        × (result ≡ only (t (wish_variable number)) (f (wish_variable number)))) }
{
    if judge::clause_holds(arrangement, wishes.clause(count, number)) {
        return 0;
    }
    let place = number as usize;
    slices::store(broken, place, 1);
    u64::from(left.get(place).copied().unwrap_or(0))
}

// In 64 bits no sum over a count of 32 bits wraps, whatever the rooms hold.
fn weigh_wishes(
    count: u32,
    wishes: FamilyRooms,
    left: &[u32],
    arrangement: &[u8],
    broken: &mut [u8],
) -> u64
    ensures { (result ≤ 2 ^ 32 * count) × ((s : Session) (t : Truth) (f : ℕ → ℕ) (size : ℕ)
        → OverWishes s (arranged arrangement.now) t f size count
        wishes.entry.literals.now wishes.entry.ends.now left.now
        → Marked size broken.old 0 (broken_mark t)
        → Marked size broken.new count (broken_mark t) × (result ≡ wish_sum t f count)) }
{
    let mut sum: u64 = 0;
    for number in 0..count {
        sum += weigh_wish(count, wishes, left, arrangement, broken, number);
    }
    sum
}

// ── Counters ──

// What tells whether a variable is true: which wishes are broken, and how many inputs of each counter are true. That the stride is
// not 0 is a fact here and no part of `Width`, since the definitions speak of every width.
#[derive(Clone, Copy)]
struct Found<'a> {
    width: Width,
    broken: &'a [u8],
    counts: &'a [u8],
    ghost spaced: { 0 < width.stride },
}

impl Found<'_> {
    // Of a wish variable, whether its wish is broken; of output k of a root, from 0, whether more than k inputs are true.
    fn truth_of(self, variable: u32) -> u8
        ensures { result ≡ truth_in self.entry.width self.entry.broken.now self.entry.counts.now variable }
    {
        if variable < FIRST_WISH {
            return 0;
        }
        if variable < FIRST_COUNTER {
            let number = (variable - FIRST_WISH) as usize;
            return self.broken.get(number).copied().unwrap_or(0);
        }
        let past = variable - FIRST_COUNTER;
        let counter = (past / self.width.stride) as usize;
        let count = self.counts.get(counter).copied().unwrap_or(0);
        u8::from(past % self.width.stride < u32::from(count))
    }

    // The truth of each input, in its order.
    fn gather(self, inputs: &[i32], truths: &mut [u8])
        requires { length inputs.now ≤ length truths.old }
        ensures { take (length inputs.now) truths.new
            ≡ map (input_truth self.entry.width self.entry.broken.now self.entry.counts.now) inputs.now }
    {
        for (place, input) in inputs.iter().enumerate() {
            let variable = variables::variable_of(*input);
            truths[place] = self.truth_of(variable);
        }
    }

    // How many inputs are true, in a byte. A counter of this opening's width has 64 at most; for more than a byte counts, the answer
    // is 0.
    fn true_count(self, inputs: &[i32]) -> u8
        ensures { length inputs.now ≤ 255
            → result ≡ true_bytes (map (input_truth self.entry.width self.entry.broken.now self.entry.counts.now) inputs.now) }
    {
        let size = inputs.len();
        if MOST_INPUTS < size {
            return 0;
        }
        let mut truths: [u8; MOST_INPUTS] = [0; MOST_INPUTS];
        self.gather(inputs, &mut truths);
        truths::true_inputs(&truths[..size]) as u8
    }
}

// The first place of a counter's outputs. The product of two numbers of 32 bits fits into 64, whatever the width, and so does
// each place that a byte can count from there.
fn first_place(literals: u32, counter: u32) -> usize
    ensures { (result ≡ literals * counter) × (result + 256 < 2 ^ 64) }
{
    literals as usize * counter as usize
}

// The remaining weight on the first `count` outputs of a root.
fn outputs_weight(width: Width, outputs: &[u32], counter: u32, count: u8) -> u64
    ensures { (result ≤ 2 ^ 40) × ((f : ℕ → ℕ) → outputs.now ≡ output_table width f
        → counter < width.counters → count ≤ width.literals
        → result ≡ output_sum (λ v. true) f (counter_start width counter) count) }
{
    let first = first_place(width.literals, counter);
    let mut sum: u64 = 0;
    for output in 0..usize::from(count) {
        sum += u64::from(outputs.get(first + output).copied().unwrap_or(0));
    }
    sum
}

// Counts the true inputs of one counter, and gives the remaining weight on its root outputs that are true: as many, from the
// first.
fn weigh_counter(
    width: Width,
    count: u32,
    counters: FamilyRooms,
    outputs: &[u32],
    broken: &[u8],
    counts: &mut [u8],
    number: u32,
) -> u64
    requires { 0 < width.stride }
    ensures { (result ≤ 2 ^ 40) × ((s : Session) (a t : Truth) (f : ℕ → ℕ) (size : ℕ)
        → OverCounters s a t f width size count
        counters.entry.literals.now counters.entry.ends.now outputs.now broken.now
        → number < count → Marked size counts.old number (count_mark s t)
        → Marked size counts.new (number + 1) (count_mark s t)
        × (result ≡ output_sum t f (counter_start width number) (length (inputs_at s number)))) }
{
    let found = Found {
        width,
        broken,
        counts,
    };
    let true_inputs = found.true_count(counters.clause(count, number));
    slices::store(counts, number as usize, true_inputs);
    outputs_weight(width, outputs, number, true_inputs)
}

// A counter's outputs can sum up to 40 bits where the rooms hold no session, which is why their count is kept small.
fn weigh_counters(
    width: Width,
    count: u32,
    counters: FamilyRooms,
    outputs: &[u32],
    broken: &[u8],
    counts: &mut [u8],
) -> u64
    requires { (0 < width.stride) × (count ≤ 2 ^ 16) }
    ensures { (result ≤ 2 ^ 40 * count) × ((s : Session) (a t : Truth) (f : ℕ → ℕ) (size : ℕ)
        → OverCounters s a t f width size count
        counters.entry.literals.now counters.entry.ends.now outputs.now broken.now
        → Marked size counts.old 0 (count_mark s t)
        → Marked size counts.new count (count_mark s t)
        × (result ≡ counter_sum width s.work.counters t f count)) }
{
    let mut sum: u64 = 0;
    for number in 0..count {
        sum += weigh_counter(width, count, counters, outputs, broken, counts, number);
    }
    sum
}

// ── An arrangement ──

// The bound plus the remaining weight on the variables that are true of the arrangement, which is its cost where it meets the
// rules. No reached session has more wishes or counters than the sizes allow; where the tally counts more, the answer is 0, for
// `weigh` has a sum to give for every tally.
pub fn weigh(
    tally: Tally,
    wishes: FamilyRooms,
    counters: FamilyRooms,
    weights: WeightRooms,
    arrangement: &[u8],
    broken: &mut [u8],
    counts: &mut [u8],
) -> u64
    ensures { (s : Session) (n m : ℕ) → Reached s → tally ≡ tally_of s
        → HeldIn wish_room wishes.entry.literals.now wishes.entry.ends.now (wish_family s.sheet.wishes)
        → HeldCounters counters.entry.literals.now counters.entry.ends.now s
        → HeldWeights weights.entry.wishes.now weights.entry.outputs.now s
        → broken.old ≡ replicate n 0 → length s.sheet.wishes ≤ n
        → counts.old ≡ replicate m 0 → length s.work.counters ≤ m
        → (broken.new ≡ broken.old) × (counts.new ≡ counts.old)
        × (result ≡ s.work.bound + weight_on (truth s.sheet s.work (arranged arrangement.now))
        (numbers_end s.sheet.width) (remaining s.sheet s.work))
        × (meets s.sheet (arranged arrangement.now) ≡ true
        → result ≡ cost s.sheet (arranged arrangement.now)) }
{
    let width = openings::width_of(tally);
    if MOST_WISHES < tally.wishes || width.counters < tally.counters {
        return 0;
    }
    let on_wishes = weigh_wishes(tally.wishes, wishes, weights.wishes, arrangement, broken);
    let on_outputs = weigh_counters(
        width,
        tally.counters,
        counters,
        weights.outputs,
        broken,
        counts,
    );
    clear(broken, tally.wishes);
    clear(counts, tally.counters);
    u64::from(tally.bound) + on_wishes + on_outputs
}
