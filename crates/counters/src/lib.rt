// The clauses of a counter by number, found by going down the halves: no clause is listed and none is stored. A counter
// starts at 1,000,000 at most and has at most 384 variables, so that each of its variables is below 1,000,384.
#![tactic(auto)]

ghost use Rattle.std.specs.Prelude.{◌≡◌, ◌+◌, ◌-◌, ◌/◌, ◌<◌, ◌≤◌, negsuc, length};
ghost use Rattle.paper.specs.Clauses.{Clause};
ghost use Rattle.paper.specs.Counters.{output, unless, sum_clause, own_clauses, clause_at, variables_of};
ghost use Rattle.counters.specs.Numbered.{counter_of, numbered, Holds, Found};

// A clause of up to three literals. The entries past its length are 0: `counter_clause` promises these too, by `Holds`, and of the
// unused places of an `arrayvec` no clause says anything.
#[derive(Clone, Copy)]
pub struct Three {
    pub literals: [i32; 3],
    pub length: usize,
}

// What a number that no clause has gets.
const NO_CLAUSE: Three = Three {
    literals: [0; 3],
    length: 0,
};

// An input's variable can be 2147483648, which only its negative literal has.
fn negative_literal(variable: usize) -> i32
    requires { variable ≤ 2147483648 }
    ensures { result ≡ negsuc (variable - 1) }
{
    !(variable.saturating_sub(1) as i32)
}

// "Not output `count`" of a run of outputs in front of `rest`, where `count` is above 0.
fn unless_output(first: usize, count: usize, rest: Three) -> Three
    requires { (first + count ≤ 2147483649) × (rest.length ≤ 2) }
    ensures length_bound { result.length ≤ rest.length + 1 }
    ensures holds { (clause : Clause) → Holds rest clause → Holds result (unless (λ k. first + k) count clause) }
{
    if count == 0 {
        return rest;
    }
    let negated = negative_literal(first + (count - 1));
    let after = rest.literals;
    Three {
        literals: [negated, after[0], after[1]],
        length: rest.length + 1,
    }
}

// The clause of `a` outputs on the left and `b` on the right. Each run of outputs goes by its first number, so the two
// parts can be any two, halves of a counter or not.
fn sum_clause(left: usize, right: usize, own: usize, a: usize, b: usize) -> Three
    requires { (left + a ≤ 2147483649) × (right + b ≤ 2147483649) × (own + (a + b) ≤ 2147483647) }
    ensures { Holds result (sum_clause (λ k. left + k) (λ k. right + k) (λ k. own + k) a b) }
{
    let sum = (own + (a + b).saturating_sub(1)) as i32;
    let last = Three {
        literals: [sum, 0, 0],
        length: 1,
    };
    unless_output(left, a, unless_output(right, b, last))
}

// The number of a part's first output. A single input is its own output.
fn first_output(inputs: &[i32], start: usize) -> usize
    requires { (0 < length inputs.now) × (length inputs.now ≤ 64) × (start ≤ 1000384) }
    ensures value { result ≡ output (counter_of inputs.now) start 0 }
    ensures inputs_bound { result + length inputs.now ≤ 2147483649 }
{
    match inputs {
        [input] => variables::variable_of(*input) as usize,
        _ => start,
    }
}

// A clause of the top node itself.
fn node_clause(inputs: &[i32], start: usize, number: usize) -> Three
    requires in_bounds { (1 < length inputs.now) × (length inputs.now ≤ 64) }
    requires inputs_bound { start + variables_of (length inputs.now) ≤ 1000384 }
    requires number_bound { number < own_clauses (length inputs.now / 2) (length inputs.now - length inputs.now / 2) }
    ensures { Holds result (clause_at (counter_of inputs.now) start number) }
{
    let size = inputs.len();
    let half = size / 2;
    let columns = size - half + 1;
    let left = first_output(&inputs[..half], start + size);
    let right = first_output(&inputs[half..], start + size + tables::variables_of(half));
    let place = number + 1;
    sum_clause(left, right, start, place / columns, place % columns)
}

// A part of a counter, by numbers alone: where its inputs begin among the counter's and how many they are, its first variable, and
// the number of a clause in it. That they are 64 at most is said of each function and is no part of a type: it would be proved
// anew for each half.
#[derive(Clone, Copy)]
struct Node {
    from: usize,
    size: usize,
    start: usize,
    number: usize,
}

// The node that a clause belongs to, found by the halves. It goes by numbers alone, so that a search costs no more than its steps. The
// node is narrowed where the caller keeps it: where calls hand one back, each level keeps a frame, and a derivation takes an eighth
// longer.
fn node_by_halves(node: &mut Node)
    requires { (node.old.size ≤ 64) × (node.old.from + node.old.size ≤ 64)
        × (node.old.start + variables_of node.old.size ≤ 1000384) }
    ensures { Found node.old node.new }
{
    let whole = *node;
    if whole.size < 2 {
        return;
    }
    let half = whole.size / 2;
    let others = whole.size - half;
    let own = half + others + half * others;
    if whole.number < own {
        return;
    }
    let below = whole.number - own;
    let left = tables::clauses_of(half);
    if below < left {
        *node = Node {
            size: half,
            start: whole.start + whole.size,
            number: below,
            ..whole
        };
        node_by_halves(node);
        return;
    }
    *node = Node {
        from: whole.from + half,
        size: others,
        start: whole.start + whole.size + tables::variables_of(half),
        number: below - left,
    };
    node_by_halves(node);
}

fn clause_by_halves(inputs: &[i32], start: usize, number: usize) -> Three
    requires { (length inputs.now ≤ 64) × (start + variables_of (length inputs.now) ≤ 1000384) }
    ensures { Holds result (clause_at (counter_of inputs.now) start number) }
{
    let mut node = Node {
        from: 0,
        size: inputs.len(),
        start,
        number,
    };
    node_by_halves(&mut node);
    let part = &inputs[node.from..node.from + node.size];
    if part.len() < 2 {
        return NO_CLAUSE;
    }
    node_clause(part, node.start, node.number)
}

// Clause `number` of the counter over the inputs' variables, whose own variables are numbered from `start` on.
pub fn counter_clause(inputs: &[i32], start: usize, number: usize) -> Three
    ensures { Holds result (numbered inputs.now start number) }
{
    if 64 < inputs.len() || 1000000 < start {
        return NO_CLAUSE;
    }
    clause_by_halves(inputs, start, number)
}
