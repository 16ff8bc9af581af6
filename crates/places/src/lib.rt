// A plan of a line: what each of its four places shows of a record. An arm gives the plan, and the places are printed straight from
// the record's body.
#![tactic(auto)]

pub mod labels;

use operands::{Label, Tail};

// How a place shows the segment of its operand.
#[derive(Clone, Copy)]
pub enum Segment {
    // `[ebx]`, whatever the segment
    Hidden,
    // `fs:[ebx]`, `ds:[esi]`
    Shown,
    // `fs:[esi]`, and `[esi]` for ds
    UnlessDs,
}

// Whose mask a place shows after its operand.
#[derive(Clone, Copy)]
pub enum Mask {
    // `[ebx]{k1}`, the operand's own
    Itself,
    // `[ebx + zmm1]{k2}` of VPSCATTER: operand 1 is the mask
    Second,
}

// What stands at a place: nothing; a register that the arm shows by itself; the branch of operand 0; or operand k, with this label
// and the N of its broadcast where it is memory, with a mask, and as `st` where `short` is set and it is st(0).
#[derive(Clone, Copy)]
pub enum Place {
    // no text
    Nothing,
    // `eax`, of `hreset 0, eax`
    Register(u8),
    // `$+80h`, `short $+80h`
    Branch,
    // `ecx`, `dword ptr fs:[ebx]`, `qword ptr [ebx]{k1}{1to8}`, `st`
    Operand {
        k: u8,
        label: Label,
        segment: Segment,
        short: bool,
        mask: Mask,
        broadcast: Option<u8>,
    },
}

// The places of a line, from the left, and what ends it.
#[derive(Clone, Copy)]
pub struct Plan {
    pub a: Place,
    pub b: Place,
    pub c: Place,
    pub d: Place,
    pub tail: Tail,
}
