// A run over any listing that arrives in parts: read, pass, write.
ghost use Rattle.std.specs.Prelude.{◌≡◌, Bool, List, ℕ, ◌-◌, ◌≤◌, ◌<◌, length, take, drop};
ghost use Rattle.records.specs.declared.Asked.{Asked as Asking};
ghost use Rattle.streams.specs.declared.Next.TheVariants.{Read as Reads};
ghost use Rattle.streams.specs.declared.Passed.{Passed as Pass};

use crate::{End, Held, refill};
use names::Tables;
use records::Asked;
use std::io::{Input, Read};
use streams::{Next, Passed};

// The stages of a listing, and the pass that a run repeats from each.
pub trait Lister: Copy {
    // Room for what a pass says.
    ghost room: { ℕ };

    // Room for the bytes that may be held where more are to be read.
    ghost most: { ℕ };

    // A stage that a pass can come to.
    ghost alive: { Self → Type 0 };

    // What a pass promises.
    ghost passes: { Asking → Self → List ℕ → Bool → Pass Self → List ℕ → Type 0 };

    fn pass(
        self,
        tables: &Tables,
        input: &[u8],
        ended: bool,
        asked: Asked,
        text: &mut [u8],
    ) -> Passed<Self>
        requires alive { alive self }
        requires room { room ≤ length text.old }
        ensures { passes asked self input.now ended result text.new };

    // What is said of the number that `begun` returns: nothing, where an `impl` says nothing.
    ghost begun_gives: { Self → ℕ → Type 0 } = { λ _ _. Unit {0} };

    // How many bytes of a frame that has begun were used.
    fn begun(self) -> usize
        requires { alive self }
        ensures { begun_gives self result };

    // What it says lies within the text, and what it uses within the bytes that are held.
    ghost fits: { (asked : Asking) (stage : Self) (held : List ℕ) (ended : Bool) (r : Pass Self) (after : List ℕ) → passes asked stage held ended r after → r.out ≤ length after };

    ghost within: { (asked : Asking) (stage : Self) (held : List ℕ) (ended : Bool) (r : Pass Self) (after : List ℕ) → passes asked stage held ended r after → r.used ≤ length held };

    // It comes to a stage that it can go on from.
    ghost lives: { (asked : Asking) (stage : Self) (held : List ℕ) (ended : Bool) (r : Pass Self) (after : List ℕ) → passes asked stage held ended r after → alive r.stage };

    // Where more bytes are to be read, few are held.
    ghost few: { (asked : Asking) (stage : Self) (held : List ℕ) (ended : Bool) (r : Pass Self) (after : List ℕ) → passes asked stage held ended r after → r.next ≡ Reads → length held - r.used < most };
}

// Stages of which it is known what `begun` returns, as of those of our programs.
pub trait Begun: Lister {
    // How many bytes of a frame that has begun were used.
    ghost begun_by: { Self → ℕ };

    // It is what `begun` returns.
    ghost begun_is: { (stage : Self) (n : ℕ) → Self.begun_gives stage n → n ≡ begun_by stage };
}

// What was counted since the start: whole frames, those that are refused, and bytes that were used. A count that no number holds stays at
// the largest.
#[derive(Clone, Copy)]
pub struct Tally {
    pub records: u64,
    pub refused: u64,
    pub used: u64,
}

impl Tally {
    fn nothing() -> Self {
        Tally {
            records: 0,
            refused: 0,
            used: 0,
        }
    }

    fn and<S>(self, passed: &Passed<S>) -> Self {
        Tally {
            records: self.records.saturating_add(passed.records as u64),
            refused: self.refused.saturating_add(passed.refused as u64),
            used: self.used.saturating_add(passed.used as u64),
        }
    }
}

// Between two turns: the stage, the bytes that are held, what was counted, and how the run ended, if it has.
#[derive(Clone, Copy)]
pub struct State<S> {
    pub stage: S,
    pub held: Held,
    pub tally: Tally,
    pub end: Option<End>,
}

// A pass, and whether its text could be written.
#[derive(Clone, Copy)]
pub struct Turn<S> {
    pub passed: Passed<S>,
    pub written: bool,
}

// One pass over the bytes that are held, and its text on standard output.
fn turn_of<S: Lister, R: Print>(
    rt: &R,
    tables: &Tables,
    stage: S,
    input: &[u8],
    ended: bool,
    asked: Asked,
    text: &mut [u8],
) -> Turn<S>
    requires alive { S.alive stage }
    requires room { S.room ≤ length text.old }
    ensures passes { S.passes asked stage input.now ended result.passed text.new }
    ensures text_len_unchanged { length text.new ≡ length text.old }
{
    let passed = stage.pass(tables, input, ended, asked, text);
    let written = rt.write_all(&text[..passed.out]).is_ok();
    Turn { passed, written }
}

// More bytes. Where they cannot be read, those that are held are at the front, and no more come.
fn refilled<S: Lister, F: Read>(
    file: &mut F,
    stage: S,
    held: Held,
    tally: Tally,
    input: &mut [u8],
) -> State<S>
    requires alive { S.alive stage }
    requires within { held.have ≤ length input.old }
    requires room { held.have - held.from < length input.old }
    ensures alive { S.alive result.stage }
    ensures from_value { (result.held.from ≡ 0) × ((held.have - held.from ≤ result.held.have) × (result.held.have ≤ length input.old)) }
    ensures input_len_unchanged { length input.new ≡ length input.old }
    ensures input_after { take (held.have - held.from) input.new ≡ drop held.from (take held.have input.old) }
{
    let (held, end) = match refill(file, held, input) {
        Ok(more) => (more, None),
        Err(_) => (held.at_the_front(), Some(End::ReadFailed)),
    };
    State {
        stage,
        held,
        tally,
        end,
    }
}

// A pass over the bytes that are held, its text on standard output, and more bytes where it needs them.
fn round_of<S: Lister, R: Print, F: Read>(
    rt: &R,
    file: &mut F,
    tables: &Tables,
    state: State<S>,
    input: &mut [u8],
    asked: Asked,
    text: &mut [u8],
) -> State<S>
    requires within { state.held.have ≤ length input.old }
    requires alive { S.alive state.stage }
    requires most { S.most ≤ length input.old }
    requires room { S.room ≤ length text.old }
    ensures within { result.held.have ≤ length input.old }
    ensures alive { S.alive result.stage }
    ensures input_len_unchanged { length input.new ≡ length input.old }
    ensures text_len_unchanged { length text.new ≡ length text.old }
{
    let held = state.held;
    let turn = turn_of(
        rt,
        tables,
        state.stage,
        &input[held.from..held.have],
        held.ended,
        asked,
        text,
    );
    let passed = turn.passed;
    let stage = passed.stage;
    let tally = state.tally.and(&passed);
    let held = held.after(passed.used);
    let end = match passed.next {
        _ if !turn.written => Some(End::WriteFailed),
        Next::Full => None,
        Next::Read => return refilled(file, stage, held, tally, input),
        Next::Whole => Some(End::Whole),
        Next::Cut => Some(End::Cut),
        Next::Unknown => Some(End::Unknown),
    };
    State {
        stage,
        held,
        tally,
        end,
    }
}

// The last words, on standard error: what was counted, and how the run ended. `cut` is where the frame begins that is cut.
fn report<R: Eprint>(rt: &R, tally: Tally, end: End, cut: u64) {
    let records = tally.records;
    let refused = tally.refused;
    let _ = match end {
        End::Whole => eprintln!(rt; "list: {records} records, {refused} refused; whole"),
        End::Cut => eprintln!(rt; "list: {records} records, {refused} refused; cut at byte {cut}"),
        End::Unknown => eprintln!(rt;
            "list: {records} records, {refused} refused; unknown version"
        ),
        End::ReadFailed => eprintln!(rt;
            "list: {records} records, {refused} refused; standard input cannot be read"
        ),
        End::WriteFailed => eprintln!(rt;
            "list: {records} records, {refused} refused; standard output cannot be written"
        ),
    };
}

// What is to be said of the listing on standard input. A proved loop has to end, and nothing says that the input does: so the turns are
// counted, up to a number that no run comes to.
pub fn run_from<S: Lister, R: Print + Eprint + Input>(
    rt: &R,
    mode: u32,
    start: S,
    input: &mut [u8],
    text: &mut [u8],
)
    requires alive { S.alive start }
    requires most { S.most ≤ length input.old }
    requires room { S.room ≤ length text.old }
{
    let asked = Asked { mode, version: 1 };
    let tables = Tables::new();
    let mut file = rt.reader();
    let mut state = State {
        stage: start,
        held: Held::nothing(),
        tally: Tally::nothing(),
        end: None,
    };
    for _ in 0..u64::MAX {
        state = round_of(rt, &mut file, &tables, state, input, asked, text);
        if let Some(end) = state.end {
            let cut = state.tally.used.saturating_sub(state.stage.begun() as u64);
            report(rt, state.tally, end, cut);
            return;
        }
    }
}
