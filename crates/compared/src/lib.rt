// Two listings side by side, each with its own place: the records that differ, by number, with both lines. Both arrive in parts, as
// the lines of `streams` do; on each side a frame is held whole, since bodies are compared whole.
#![tactic(auto)]

pub mod events;
pub mod pass;
pub mod reading;
pub mod same;
pub mod settle;
pub mod sides;
pub mod steps;

use frames::Frame;
use records::Asked;

// What is asked of the records of each side: their lines are by that side's own version.
#[derive(Clone, Copy)]
pub struct AskedSides {
    pub first: Asked,
    pub second: Asked,
}

// What is to be said of a side: nothing, that it is cut, or that its version byte is not known.
#[derive(Clone, Copy)]
pub enum Side {
    Sound,
    Cut,
    Version,
}

// What is to be done at a place of both listings: bytes are wanted, of the first or of the second; the run ends, with what is to be
// said of each side; or a record stands there, on both sides or on one, by the places of its body.
#[derive(Clone, Copy)]
pub enum Turn {
    First,
    Second,
    Ends {
        first: Side,
        second: Side,
    },
    Records {
        first: Option<Frame>,
        second: Option<Frame>,
    },
}

// How far the comparison has come: nothing yet; before a record, with its number, how many were named, and each side's version; or to
// its end, and whether anything was reported.
#[derive(Clone, Copy)]
pub enum Stage {
    Versions,
    Records {
        number: u64,
        named: u64,
        first_version: u32,
        second_version: u32,
    },
    Done {
        different: bool,
    },
}

// What comes next: more of what is held, once the text is handed out; bytes of the first or of the second listing, if there are any;
// or nothing.
#[derive(Clone, Copy)]
pub enum Next {
    On,
    First,
    Second,
    Nothing,
}

// What is said of a record: the place after it, and how many records are named then.
#[derive(Clone, Copy)]
pub struct Noted {
    pub out: usize,
    pub named: u64,
}

// What a step comes to, and a pass of steps: the stage then, the place in each listing, the next place of the text, and what comes
// next.
#[derive(Clone, Copy)]
pub struct Passed {
    pub stage: Stage,
    pub first: usize,
    pub second: usize,
    pub out: usize,
    pub next: Next,
}
