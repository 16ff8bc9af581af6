// What happens between two calls of the system, as one function: steps, one after the other, and what they say.
ghost use Rattle.std.specs.Prelude.{◌≡◌, ◌+◌, ◌≤◌, length};
ghost use Rattle.located.specs.Pass.{Passes, Goes, Unused, next_at};
ghost use Rattle.located.specs.Ways.{part_room, goes_none, goes_then};
ghost use Rattle.located.specs.Parts.{longest_part};

use crate::Stage;
use crate::steps::step;
use names::Tables;
use records::Asked;
use streams::stages::{self, Stages};
use streams::{Next, Passed, Step};

// Room for what is said of any record.
pub const LONGEST_PART: usize = 204_000;

impl Stages for Stage {
    const ROOM: usize = LONGEST_PART;

    ghost ROOM = { longest_part };

    ghost way = { Goes };

    ghost unused = { λ _ stage held. Unused stage held };

    ghost alive = { λ _. Unit {0} };

    ghost next_from = { next_at };

    fn step(
        self,
        tables: &Tables,
        input: &[u8],
        asked: Asked,
        text: &mut [u8],
        out: usize,
    ) -> Step<Self> {
        step(tables, self, input, asked, text, out)
    }

    fn next_at(self, ended: bool, held: usize) -> Next {
        match self {
            Stage::Version => { if ended { Next::Cut } else { Next::Read } }
            Stage::Frames {
                number,
                offset,
                version,
            } => {
                if ended {
                    if 0 < held { Next::Cut } else { Next::Whole }
                } else {
                    Next::Read
                }
            }
            Stage::Done => Next::Unknown,
        }
    }

    ghost enough = { part_room };

    ghost none = { λ asked stage held. goes_none };

    ghost then = { λ asked stage held says now left a b more last rest c d one other. goes_then one other };
}

// Takes steps with the bytes that are there and puts what they say into the text from its start: until no step uses any, or there is
// no room for the longest part. Where the input has ended, `; cut` is said here too.
pub fn pass(
    tables: &Tables,
    stage: Stage,
    input: &[u8],
    ended: bool,
    asked: Asked,
    text: &mut [u8],
) -> Passed<Stage>
    requires longest_part_in_bounds { longest_part ≤ length text.old }
    ensures { Passes asked stage input.now ended result text.new }
{
    stages::pass(tables, stage, input, ended, asked, text)
}
