// From two files to standard output: where two listings differ. Read, pass, write, as in crate `stdio`, over `compared::pass::pass`. On
// each side a frame is held whole, so the buffers for what is read have 128 KiB.
#![tactic(auto)]

ghost use Rattle.std.specs.Prelude.{◌≡◌, ◌≤◌, length};
ghost use Rattle.compared.specs.Text.{longest_event};
ghost use Rattle.cursors.specs.Longest.{longest_frame};
ghost use Rattle.compared.specs.Pass.{Passes};

use compared::pass::pass;
use compared::same::same_bytes;
use compared::{Next, Passed, Stage};
use names::Tables;
use records::Asked;
use std::env::{Env, FillError};
use std::fs;
use std::io::Read;
use std::rt::Files;
use stdio::{Held, input_buffer, large_buffer, refill};

// How a run ended.
#[derive(Clone, Copy)]
pub enum Verdict {
    Same,
    Different,
    FirstUnread,
    SecondUnread,
    Unwritten,
}

// Between two turns: the stage, the bytes that are held of each file, and how the run ended, if it has.
#[derive(Clone, Copy)]
pub struct State {
    pub stage: Stage,
    pub first: Held,
    pub second: Held,
    pub verdict: Option<Verdict>,
}

// How the run ended, once nothing is left to be said.
fn verdict_at(stage: Stage) -> Option<Verdict> {
    match stage {
        Stage::Versions | Stage::Records { .. } => None,
        Stage::Done { different: true } => Some(Verdict::Different),
        Stage::Done { different: false } => Some(Verdict::Same),
    }
}

// A pass, and whether its text could be written.
#[derive(Clone, Copy)]
pub struct Turn {
    pub passed: Passed,
    pub written: bool,
}

// One pass over the bytes that are held on both sides, and its text on standard output.
fn turn_of<R: Print>(
    rt: &R,
    tables: &Tables,
    stage: Stage,
    first: &[u8],
    first_ended: bool,
    second: &[u8],
    second_ended: bool,
    asked: Asked,
    text: &mut [u8],
) -> Turn
    requires { longest_event ≤ length text.old }
    ensures passes { Passes asked stage first.now second.now first_ended second_ended result.passed text.new }
    ensures text_len_unchanged { length text.new ≡ length text.old }
{
    let passed = pass(
        tables,
        stage,
        first,
        first_ended,
        second,
        second_ended,
        asked,
        text,
    );
    let written = rt.write_all(&text[..passed.out]).is_ok();
    Turn { passed, written }
}

// A pass over the bytes that are held on both sides, its text on standard output, and more bytes of the file that it wants them of.
fn round_of<R: Print, F: Read>(
    rt: &R,
    tables: &Tables,
    state: State,
    first_file: &mut F,
    second_file: &mut F,
    first: &mut [u8],
    second: &mut [u8],
    asked: Asked,
    text: &mut [u8],
) -> State
    requires first_within { state.first.have ≤ length first.old }
    requires second_within { state.second.have ≤ length second.old }
    requires first_room { longest_frame ≤ length first.old }
    requires second_room { longest_frame ≤ length second.old }
    requires room { longest_event ≤ length text.old }
    ensures first_within { result.first.have ≤ length first.new }
    ensures second_within { result.second.have ≤ length second.new }
    ensures first_len_unchanged { length first.new ≡ length first.old }
    ensures second_len_unchanged { length second.new ≡ length second.old }
    ensures text_len_unchanged { length text.new ≡ length text.old }
{
    let (one, other) = (state.first, state.second);
    let turn = turn_of(
        rt,
        tables,
        state.stage,
        &first[one.from..one.have],
        one.ended,
        &second[other.from..other.have],
        other.ended,
        asked,
        text,
    );
    let passed = turn.passed;
    let one = one.after(passed.first);
    let other = other.after(passed.second);
    let (one, other, verdict) = match passed.next {
        _ if !turn.written => (one, other, Some(Verdict::Unwritten)),
        Next::On => (one, other, None),
        Next::First => match refill(first_file, one, first) {
            Ok(more) => (more, other, None),
            // The run ends here, so where the bytes lie now is not asked again; and so below.
            Err(_) => (one, other, Some(Verdict::FirstUnread)),
        },
        Next::Second => match refill(second_file, other, second) {
            Ok(more) => (one, more, None),
            Err(_) => (one, other, Some(Verdict::SecondUnread)),
        },
        Next::Nothing => (one, other, verdict_at(passed.stage)),
    };
    State {
        stage: passed.stage,
        first: one,
        second: other,
        verdict,
    }
}

// The report on two open files, and how the run ended. As in `stdio`, the turns are counted, up to a number that no run comes to.
fn compare<R: Print, F: Read>(
    rt: &R,
    asked: Asked,
    first_file: &mut F,
    second_file: &mut F,
) -> Option<Verdict> {
    let tables = Tables::new();
    let mut first = input_buffer();
    let mut second = input_buffer();
    let mut text = large_buffer();
    let mut state = State {
        stage: Stage::Versions,
        first: Held::nothing(),
        second: Held::nothing(),
        verdict: None,
    };
    for _ in 0..u64::MAX {
        state = round_of(
            rt,
            &tables,
            state,
            first_file,
            second_file,
            &mut first,
            &mut second,
            asked,
            &mut text,
        );
        if state.verdict.is_some() {
            return state.verdict;
        }
    }
    None
}

// The last words, on standard error.
fn say<R: Eprint>(rt: &R, words: &str) {
    let _ = eprintln!(rt; "compare-listings: {words}");
}

fn report<R: Eprint>(rt: &R, verdict: Verdict) {
    match verdict {
        Verdict::Same => say(rt, "same"),
        Verdict::Different => say(rt, "different"),
        Verdict::FirstUnread => say(rt, "the first listing cannot be read"),
        Verdict::SecondUnread => say(rt, "the second listing cannot be read"),
        Verdict::Unwritten => say(rt, "standard output cannot be written"),
    }
}

// A word of the program fits in 4,096 bytes, as any path does.
fn word_buffer() -> [u8; 4096]
    ensures { 4_096 ≡ length result }
{
    [0; 4096]
}

// The modes by their words.
fn mode_of(word: &[u8]) -> Option<u32> {
    if same_bytes(word, b"crate") {
        Some(0)
    } else if same_bytes(word, b"straight") {
        Some(1)
    } else if same_bytes(word, b"target") {
        Some(2)
    } else {
        None
    }
}

// The mode that the first word names, if it is one of the three.
fn mode_asked<R: Env>(rt: &R) -> Option<u32> {
    let mut word = word_buffer();
    let length = rt.arg(1, &mut word).ok()?;
    mode_of(&word[..length])
}

// The program was given a word of this number. One that is too long counts.
fn has_word<R: Env>(rt: &R, number: usize) -> bool {
    let mut word = word_buffer();
    !matches!(rt.arg(number, &mut word), Err(FillError::NotPresent))
}

// The file that a word names, open for reading. A name that is no text in UTF-8 names none.
fn open_named<R: Env + Files>(rt: &R, number: usize) -> Option<R::File> {
    let mut path = word_buffer();
    let length = rt.arg(number, &mut path).ok()?;
    let name = str::from_utf8(&path[..length]).ok()?;
    fs::open(rt, name).ok()
}

// By the program's words: the mode, and the names of the first and the second listing.
pub fn run<R: Env + Files + Print + Eprint>(rt: &R) {
    let Some(mode) = mode_asked(rt) else {
        say(rt, "called wrongly");
        return;
    };
    if !has_word(rt, 3) || has_word(rt, 4) {
        say(rt, "called wrongly");
        return;
    }
    let Some(mut first) = open_named(rt, 2) else {
        say(rt, "the first listing cannot be opened");
        return;
    };
    let Some(mut second) = open_named(rt, 3) else {
        say(rt, "the second listing cannot be opened");
        return;
    };
    if let Some(verdict) = compare(rt, Asked { mode, version: 1 }, &mut first, &mut second) {
        report(rt, verdict);
    }
}
