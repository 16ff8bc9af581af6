// The lines of a listing in mode 1, straight: from standard input to standard output.
#![tactic(auto)]

fn main(rt: HostRuntime) {
    stdio::run(&rt, 1);
}
