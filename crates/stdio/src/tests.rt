// What a run is told of a frame that has begun, and a run over stages that are not ours.
ghost use Rattle.std.specs.Prelude.{◌≡◌, ◌-◌, ◌≤◌, ◌<◌, length};
ghost use Rattle.streams.specs.declared.Next.TheVariants.{Read as Reads};

use crate::lister::{Begun, Lister, run_from};
use names::Tables;
use records::Asked;
use std::cell::Cell;
use streams::{Next, Passed, Stage};

// Stages that somebody else brings. They count the passes that are made and how often `begun` is asked; of what it returns nothing is said.
#[derive(Clone, Copy)]
struct Counted<'a> {
    made: &'a Cell<usize>,
    asked: &'a Cell<usize>,
}

impl Lister for Counted<'_> {
    ghost room = { 0 };

    ghost most = { 0 };

    ghost alive = { λ _. Unit {0} };

    ghost passes = { λ asked stage held ended r after. (r.out ≤ length after) × ((r.used ≤ length held) × (r.next ≡ Reads → length held - r.used < 0)) };

    fn pass(
        self,
        _tables: &Tables,
        _input: &[u8],
        _ended: bool,
        _asked: Asked,
        _text: &mut [u8],
    ) -> Passed<Self> {
        self.made.set(self.made.get().saturating_add(1));
        Passed {
            stage: self,
            used: 0,
            out: 0,
            records: 0,
            refused: 0,
            next: Next::Cut,
        }
    }

    fn begun(self) -> usize {
        self.asked.set(self.asked.get().saturating_add(1));
        self.asked.get()
    }

    ghost fits = { λ asked stage held ended r after p. p.0 };

    ghost within = { λ asked stage held ended r after p. p.1.0 };

    ghost lives = { λ asked stage held ended r after p. tt };

    ghost few = { λ asked stage held ended r after p reads. p.1.1 reads };
}

// One pass says that the listing is cut, so the run makes no other, and asks once where.
#[test]
fn run_of_other_stages(rt: HostRuntime) {
    let (made, asked) = (Cell::new(0), Cell::new(0));
    let start = Counted {
        made: &made,
        asked: &asked,
    };
    run_from(&rt, 0, start, &mut [], &mut []);
    assert_eq!(rt; made.get(), 1);
    assert_eq!(rt; asked.get(), 1);
}

// What is known of the stages of a program.
fn told<S: Begun>(stage: S) -> usize
    requires { S.alive stage }
    ensures { result ≡ S.begun_by stage }
{
    stage.begun()
}

#[test]
fn begun_of_our_stages(rt: HostRuntime) {
    let skipping = Stage::Skip {
        left: 1000,
        size: 1550,
        version: 1,
    };
    assert_eq!(rt; told(skipping), 550);
    assert_eq!(rt; told(Stage::Version), 0);
    assert_eq!(rt; told(located::Stage::Version), 0);
}
