// Where two listings differ. Its words: the mode, which is crate, straight or target, and the files of the first and of the second listing.
#![tactic(auto)]

fn main(rt: HostRuntime) {
    two_files::run(&rt);
}
