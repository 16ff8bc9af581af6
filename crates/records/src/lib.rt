// One record: every body, all that is asked, and every buffer gets an answer. `put` is the one way in which a record is printed.
#![tactic(auto)]

pub mod judge;
pub mod put;

use answers::Reason;
use bodies::Body;
use names::Arm;
use places::Plan;

// What is asked of an entry point, besides the bytes. A listing says its version itself.
#[derive(Clone, Copy)]
pub struct Asked {
    pub mode: u32,
    pub version: u32,
}

// A record that nothing refuses before there is a buffer: its arm, the plan of its line, and its body.
#[derive(Clone, Copy)]
pub struct Accepted<'a> {
    pub arm: Arm,
    pub plan: Plan,
    pub body: Body<'a>,
}

// What was put of a record: why it is refused, if it is, and the place after its text.
#[derive(Clone, Copy)]
pub struct Placed {
    pub refused: Option<Reason>,
    pub out: usize,
}
