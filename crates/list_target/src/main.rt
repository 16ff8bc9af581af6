// The lines of a listing in mode 2, with the targets of branches: from standard input to standard output.
#![tactic(auto)]

fn main(rt: HostRuntime) {
    stdio::run(&rt, 2);
}
