// A pass over a listing that arrives in parts, whatever is said of its records: steps, one after the other, and what they say.
ghost use Rattle.std.specs.Prelude.{◌≡◌, ◌++◌, Bool, List, [], ℕ, ◌+◌, ◌≤◌, length};
ghost use Rattle.lines.specs.Text.{longest_line};
ghost use Rattle.records.specs.declared.Asked.{Asked as Asking};
ghost use Rattle.streams.specs.declared.Next.{Next as Coming};
ghost use Rattle.streams.specs.Stages.{Way, StepsOn, PassesOver};

use crate::pass::put_last;
use crate::{Next, Passed, Step};
use names::Tables;
use records::Asked;

// The stages of a listing, and what a step from each says.
pub trait Stages: Copy {
    // Room for what any step says.
    const ROOM: usize;

    ghost ROOM: { ℕ };

    // The way from a stage with the bytes that are held to another: what is said on it, and the frames, and refused ones, that end on it.
    ghost way: { Way Self };

    // The bytes that are held are not enough for a step.
    ghost unused: { Asking → Self → List ℕ → Type 0 };

    // A stage that a step can come to.
    ghost alive: { Self → Type 0 };

    // What comes next where no step uses any of the bytes that are held.
    ghost next_from: { Bool → Self → ℕ → Coming };

    fn step(
        self,
        tables: &Tables,
        input: &[u8],
        asked: Asked,
        text: &mut [u8],
        out: usize,
    ) -> Step<Self>
        requires alive { alive self }
        requires room { out + ROOM ≤ length text.old }
        ensures { StepsOn way unused alive ROOM asked self input.now text.old out result text.new };

    fn next_at(self, ended: bool, held: usize) -> Next
        ensures { result ≡ next_from ended self held };

    // There is room for the last line.
    ghost enough: { longest_line + 1 ≤ ROOM };

    // No way, and one after the other.
    ghost none: { (asked : Asking) (stage : Self) (held : List ℕ) → way asked stage held [] stage held 0 0 };

    ghost then: { (asked : Asking) (stage : Self) (held says : List ℕ) (now : Self) (left : List ℕ) (a b : ℕ) (more : List ℕ) (last : Self) (rest : List ℕ) (c d : ℕ) → way asked stage held says now left a b → way asked now left more last rest c d → way asked stage held (says ++ more) last rest (a + c) (b + d) };
}

// Takes steps with the bytes that are there and puts what they say into the text from its start: until no step uses any, or there is
// no room for what a step may say. Where the input has ended, `; cut` is said here too.
pub fn pass<S: Stages>(
    tables: &Tables,
    stage: S,
    input: &[u8],
    ended: bool,
    asked: Asked,
    text: &mut [u8],
) -> Passed<S>
    requires alive { S.alive stage }
    requires room { S.ROOM ≤ length text.old }
    ensures { PassesOver S.way S.unused S.alive S.next_from asked stage input.now ended result text.new }
{
    let mut stage = stage;
    let mut at = 0;
    let mut out = 0;
    let mut records = 0;
    let mut refused = 0;
    while S::ROOM <= text.len() - out {
        let taken = stage.step(tables, &input[at..], asked, text, out);
        if taken.used == 0 {
            let next = stage.next_at(ended, input.len() - at);
            let out = put_last(text, out, next);
            return Passed {
                stage,
                used: at,
                out,
                records,
                refused,
                next,
            };
        }
        stage = taken.stage;
        at += taken.used;
        out = taken.out;
        records += taken.records;
        refused += taken.refused;
    }
    Passed {
        stage,
        used: at,
        out,
        records,
        refused,
        next: Next::Full,
    }
}
