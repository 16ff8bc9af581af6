// Hand-picked records of every arm in mode 0: `make-stdin` has them, one by one, with the line expected of each.
#![tactic(auto)]

fn main(rt: HostRuntime) {
    stdio::run(&rt, 0);
}
