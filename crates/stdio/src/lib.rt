// From standard input to standard output, through one buffer for what is read and one for what is written: the calls of the system, of
// which no contract can speak. All that matters is a pass: `streams::pass::pass` of the lines, `located::pass::pass` of the
// records with their places (`locate`), and in crate `two_files` `compared::pass::pass`.
#![tactic(auto)]

ghost use Rattle.std.specs.Prelude.{◌≡◌, ◌+◌, ◌-◌, ◌≤◌, ◌<◌, true, false, length, take, drop, IfOk};
ghost use Rattle.lines.specs.Text.{longest_line};
ghost use Rattle.bodies.specs.Refusals.{longest_body};
ghost use Rattle.streams.specs.Stream.{Alive, begun_of};
ghost use Rattle.streams.specs.Pass.{Passes};
ghost use Rattle.stdio.specs.Lines.{few_held};

use lister::{Begun, Lister, run_from};
use names::Tables;
use records::Asked;
use std::io::{self, Input, Read};
use streams::pass::pass;
use streams::stream::begun;
use streams::{Passed, Stage};

pub mod lister;
pub mod locate;
#[cfg(test)]
mod tests;

// The bytes that are held of a buffer, from `from` up to `have`, and whether the input has ended.
#[derive(Clone, Copy)]
pub struct Held {
    pub from: usize,
    pub have: usize,
    pub ended: bool,
    ghost ordered: { from ≤ have },
}

impl Held {
    // Nothing yet.
    pub fn nothing() -> Self
        ensures { (result.from ≡ 0) × ((result.have ≡ 0) × (result.ended ≡ false)) }
    {
        Held {
            from: 0,
            have: 0,
            ended: false,
        }
    }

    // What is left of them once so many bytes were used.
    pub fn after(self, used: usize) -> Self
        requires { self.from + used ≤ self.have }
        ensures { (result.from ≡ self.from + used) × ((result.have ≡ self.have) × (result.ended ≡ self.ended)) }
    {
        Held {
            from: self.from + used,
            have: self.have,
            ended: self.ended,
        }
    }

    // They moved to the front, and no more come.
    fn at_the_front(self) -> Self
        ensures { (result.from ≡ 0) × ((result.have ≡ self.have - self.from) × (result.ended ≡ true)) }
    {
        Held {
            from: 0,
            have: self.have - self.from,
            ended: true,
        }
    }
}

// How a run ended.
#[derive(Clone, Copy)]
pub enum End {
    Whole,
    Cut,
    Unknown,
    ReadFailed,
    WriteFailed,
}

// For what is read or written, where a part of a frame serves.
pub fn large_buffer() -> [u8; 65536]
    ensures { 65_536 ≡ length result }
{
    [0; 65536]
}

// For what is read: one frame at least, whole.
pub fn input_buffer() -> [u8; 131072]
    ensures { 131_072 ≡ length result }
{
    [0; 131072]
}

// More bytes, after those that are held, which move to the front. There is room for some, so none means the end of the input.
pub fn refill<F: Read>(file: &mut F, held: Held, input: &mut [u8]) -> io::Result<Held>
    requires within { held.have ≤ length input.old }
    requires room { held.have - held.from < length input.old }
    ensures input_len_unchanged { length input.new ≡ length input.old }
    ensures input_after { take (held.have - held.from) input.new ≡ drop held.from (take held.have input.old) }
    ensures ok { IfOk result (λ more. (more.from ≡ 0) × ((held.have - held.from ≤ more.have) × (more.have ≤ length input.old))) }
{
    input.copy_within(held.from..held.have, 0);
    let kept = held.have - held.from;
    let count = file.read(&mut input[kept..])?;
    Ok(Held {
        from: 0,
        have: kept + count,
        ended: count == 0,
    })
}

impl Lister for Stage {
    ghost room = { longest_line + 1 };

    ghost most = { longest_body + 2 };

    ghost alive = { Alive };

    ghost passes = { Passes };

    fn pass(
        self,
        tables: &Tables,
        input: &[u8],
        ended: bool,
        asked: Asked,
        text: &mut [u8],
    ) -> Passed<Self> {
        pass(tables, self, input, ended, asked, text)
    }

    ghost begun_gives = { λ stage n. n ≡ begun_of stage };

    fn begun(self) -> usize {
        begun(self)
    }

    ghost fits = { λ asked stage held ended r after p. p.fits };

    ghost within = { λ asked stage held ended r after p. p.within };

    ghost lives = { λ asked stage held ended r after p. p.alive };

    ghost few = { λ asked stage held ended r after p reads. few_held p reads };
}

impl Begun for Stage {
    ghost begun_by = { begun_of };

    ghost begun_is = { λ stage n gives. gives };
}

// The lines of the listing on standard input.
pub fn run<R: Print + Eprint + Input>(rt: &R, mode: u32) {
    let mut input = large_buffer();
    let mut text = large_buffer();
    run_from(rt, mode, Stage::Version, &mut input, &mut text);
}
