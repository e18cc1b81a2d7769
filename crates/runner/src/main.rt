// The tally as a program: records on standard input, an answer line for each on standard output.
#![tactic(auto)]

fn main(rt: HostRuntime) {
    stream::run(&mut rt.stdin(), &rt.stdout(), u64::MAX);
}
