// The two entry points over lent tables: a listing, that is a version byte and frames, and one record. Both print by one loop.
#![tactic(auto)]

use answers::Reason;

pub mod listing;
pub mod record;
pub mod walk;

// After what stands at a place: the next place of the bytes, the next place of the text, and why a record is refused, if it is.
#[derive(Clone, Copy)]
pub struct Next {
    pub at: usize,
    pub out: usize,
    pub refused: Option<Reason>,
}

// After all of it: why the last record is refused, if it is, and how many bytes of text there are.
#[derive(Clone, Copy)]
pub struct Walked {
    pub refused: Option<Reason>,
    pub total: usize,
}

// How a walk is called: over a body alone or over a listing's frames; with its text in its place, or each line aside.
pub const ALONE: bool = true;

pub const LISTED: bool = false;

pub const ASIDE: bool = true;

pub const IN_PLACE: bool = false;
