// A listing with the place of each record, in mode 0, the crate's: from standard input to standard output.
#![tactic(auto)]

fn main(rt: HostRuntime) {
    stdio::locate::run(&rt, 0);
}
