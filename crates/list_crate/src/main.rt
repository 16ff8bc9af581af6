// The lines of a listing in mode 0, the crate's: from standard input to standard output.
#![tactic(auto)]

fn main(rt: HostRuntime) {
    stdio::run(&rt, 0);
}
