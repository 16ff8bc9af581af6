// What happens between two calls of the system, as one function: steps, one after the other, and their lines.
ghost use Rattle.std.specs.Prelude.{◌≡◌, ◌+◌, ◌≤◌, length};
ghost use Rattle.text.specs.Code.{Put};
ghost use Rattle.lines.specs.Text.{longest_line};
ghost use Rattle.streams.specs.Stream.{Alive};
ghost use Rattle.streams.specs.Pass.{Passes, Steps, Unused, next_at, last_line};
ghost use Rattle.streams.specs.Ways.{longest_room, way_none, way_then};

use crate::stages::{self, Stages};
use crate::stream::step;
use crate::{Next, Passed, Stage, Step};
use lines::LONGEST_LINE;
use names::Tables;
use records::Asked;

// The last line, where there is one.
pub fn put_last(text: &mut [u8], out: usize, next: Next) -> usize
    requires { out + longest_line + 1 ≤ length text.old }
    ensures { Put text.old out (last_line next) result text.new }
{
    match next {
        Next::Cut => text::put_bytes(text, out, b"; cut\n"),
        Next::Full => out,
        Next::Read => out,
        Next::Whole => out,
        Next::Unknown => out,
    }
}

impl Stages for Stage {
    const ROOM: usize = LONGEST_LINE + 1;

    ghost ROOM = { longest_line + 1 };

    ghost way = { Steps };

    ghost unused = { Unused };

    ghost alive = { Alive };

    ghost next_from = { next_at };

    fn step(
        self,
        tables: &Tables,
        input: &[u8],
        asked: Asked,
        text: &mut [u8],
        out: usize,
    ) -> Step<Self> {
        step(tables, self, input, asked, text, out)
    }

    fn next_at(self, ended: bool, held: usize) -> Next {
        match self {
            Stage::Version => { if ended { Next::Cut } else { Next::Read } }
            Stage::Frames { version } => {
                if ended {
                    if 0 < held { Next::Cut } else { Next::Whole }
                } else {
                    Next::Read
                }
            }
            Stage::Skip {
                left,
                size,
                version,
            } => { if ended { Next::Cut } else { Next::Read } }
            Stage::Done => Next::Unknown,
        }
    }

    ghost enough = { longest_room };

    ghost none = { λ asked stage held. way_none };

    ghost then = { λ asked stage held says now left a b more last rest c d one other. way_then one other };
}

// Takes steps with the bytes that are there and puts their lines into the text from its start: until no step uses any, or there is
// no room for the longest line. Where the input has ended, `; cut` is said here too.
pub fn pass(
    tables: &Tables,
    stage: Stage,
    input: &[u8],
    ended: bool,
    asked: Asked,
    text: &mut [u8],
) -> Passed<Stage>
    requires alive { Alive stage }
    requires longest_line_in_bounds { longest_line + 1 ≤ length text.old }
    ensures { Passes asked stage input.now ended result text.new }
{
    stages::pass(tables, stage, input, ended, asked, text)
}
