// A listing with the place of each record. A frame is held whole, so the buffer for what is read has 128 KiB; the text of the longest record
// has room in 256 KiB.
ghost use Rattle.std.specs.Prelude.{◌≡◌, length};
ghost use Rattle.located.specs.Pass.{Passes, longest_frame};
ghost use Rattle.located.specs.Parts.{longest_part};
ghost use Rattle.stdio.specs.Locating.{few_held};

use crate::input_buffer;
use crate::lister::{Begun, Lister, run_from};
use located::Stage;
use located::pass::pass;
use names::Tables;
use records::Asked;
use std::io::Input;
use streams::Passed;

impl Lister for Stage {
    ghost room = { longest_part };

    ghost most = { longest_frame };

    ghost alive = { λ _. Unit {0} };

    ghost passes = { Passes };

    fn pass(
        self,
        tables: &Tables,
        input: &[u8],
        ended: bool,
        asked: Asked,
        text: &mut [u8],
    ) -> Passed<Self> {
        pass(tables, self, input, ended, asked, text)
    }

    ghost begun_gives = { λ stage n. n ≡ 0 };

    fn begun(self) -> usize {
        0
    }

    ghost fits = { λ asked stage held ended r after p. p.fits };

    ghost within = { λ asked stage held ended r after p. p.within };

    ghost lives = { λ asked stage held ended r after p. tt };

    ghost few = { λ asked stage held ended r after p reads. few_held p reads };
}

// A frame is held whole, so none has begun.
impl Begun for Stage {
    ghost begun_by = { λ _. 0 };

    ghost begun_is = { λ stage n gives. gives };
}

// For what is written: the text of one record at least.
fn text_buffer() -> [u8; 262144]
    ensures { 262_144 ≡ length result }
{
    [0; 262144]
}

// The text of the listing on standard input.
pub fn run<R: Print + Eprint + Input>(rt: &R, mode: u32) {
    let mut input = input_buffer();
    let mut text = text_buffer();
    run_from(rt, mode, Stage::Version, &mut input, &mut text);
}
