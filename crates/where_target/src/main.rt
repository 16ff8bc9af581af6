// A listing with the place of each record, in mode 2, with the targets of branches: from standard input to standard output.
#![tactic(auto)]

fn main(rt: HostRuntime) {
    stdio::locate::run(&rt, 2);
}
