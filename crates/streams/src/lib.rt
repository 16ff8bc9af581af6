// A listing that arrives in parts: what the listing programs repeat between two calls of the system.
#![tactic(auto)]

pub mod pass;
pub mod stages;
pub mod stream;

// How far a listing has come that arrives in parts: nothing yet, at a frame's start, in a body that is too long for any record
// (so many bytes of its frame are to come, of so many in all), or past a version byte that is not known. The listing's version goes
// with its frames.
#[derive(Clone, Copy)]
pub enum Stage {
    Version,
    Frames {
        version: u32,
    },
    Skip {
        left: usize,
        size: usize,
        version: u32,
    },
    Done,
}

// One step from a stage: the stage then, how many bytes it used, the next place of the text, and how many frames it saw the end of (one
// or none), and how many of these are refused.
#[derive(Clone, Copy)]
pub struct Step<S> {
    pub stage: S,
    pub used: usize,
    pub out: usize,
    pub records: usize,
    pub refused: usize,
}

// What comes after the lines that a pass put: its text is full, and there may be more to say of the bytes that are there; more bytes
// are to be read; or nothing more is to be said, since the listing is whole, or cut, or of an unknown version.
#[derive(Clone, Copy)]
pub enum Next {
    Full,
    Read,
    Whole,
    Cut,
    Unknown,
}

// What a pass comes to: the stage then, how many bytes it used, the place after its lines, its counts, and what comes next.
#[derive(Clone, Copy)]
pub struct Passed<S> {
    pub stage: S,
    pub used: usize,
    pub out: usize,
    pub records: usize,
    pub refused: usize,
    pub next: Next,
}
