// The text of a line and its put. A line is never built: its head is printed from the arm and the flags, its places straight from
// the record's body.
#![tactic(auto)]

pub mod bracket;
pub mod broadcast;
pub mod heads;
pub mod place;
pub mod print;

use operands::{Items, Tail};

// Document 02: "A line may have 320 bytes."
pub const LONGEST_LINE: usize = 320;

// The mnemonic: an opcode's own name, or one of the three words that are no opcode's name.
#[derive(Clone, Copy)]
pub enum Name {
    Opcode(u16),
    Feni,
    Fdisi,
    Fsetpm,
}

// What stands before the operands: the prefix words in the printed order, the mnemonic, and whether a `d` is after it.
#[derive(Clone, Copy)]
pub struct Head {
    pub xacquire: bool,
    pub xrelease: bool,
    pub lock: bool,
    pub rep: bool,
    pub repne: bool,
    pub name: Name,
    pub suffix: bool,
}

// What a line shows, made from the record's fields and its arm and never from text: what the promises speak of.
#[derive(Clone, Copy)]
pub struct Line {
    pub head: Head,
    pub items: Items,
    pub tail: Tail,
}
