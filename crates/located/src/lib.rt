// A listing with the place of each record: before a record's line its number and the byte where its frame begins, after it its body
// in hex. It arrives in parts, as the lines of `streams` do; a frame is held whole here, since all of its bytes are shown.
#![tactic(auto)]

pub mod body;
pub mod part;
pub mod pass;
pub mod steps;

// How far a listing has come that arrives in parts: nothing yet; at a frame's start, with the number and the place of its record and
// the listing's version; or past a version byte that is not known.
#[derive(Clone, Copy)]
pub enum Stage {
    Version,
    Frames {
        number: u64,
        offset: u64,
        version: u32,
    },
    Done,
}
