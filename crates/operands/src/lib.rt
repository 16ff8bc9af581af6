// What a record says and what a line shows, by value: the types that every crate above shares. An operand is a case; a memory
// case holds its own base, index and scale. What a line shows never comes from text.
#![tactic(auto)]

pub mod kinds;

// A bracket's own registers, scale and displacement. A part that the record's kind does not have is false and 0.
#[derive(Clone, Copy)]
pub struct Address {
    pub disp: i32,
    pub base: u8,
    pub index: u8,
    pub scale: u8,
    pub based: bool,
    pub indexed: bool,
    pub displaced: bool,
}

// An operand as the record has it. `Absent` is an operand at or past the count. `place` is 1 for the R place and 2 for the M
// place; an immediate keeps its kind, 3 to 8, and its value as 32 bits, extended where the kind is signed. `mask` is the register byte of
// the mask, and 0 of a kind that has none.
#[derive(Clone, Copy)]
pub enum Operand {
    // no text
    Absent,
    // `eax`, `xmm1`, `st(1)`
    Register {
        place: u8,
        reg: u8,
    },
    // `9`, `0FFFFFFFFh`
    Imm {
        kind: u8,
        value: u32,
    },
    // `[0ABCDh]`, `fs:[0030h]`
    Absolute16 {
        segment: u8,
        address: u16,
    },
    // `[00402000h]`
    Absolute32 {
        segment: u8,
        address: u32,
    },
    // `[ebx]`, `fs:[ebx + esi * 4 - 10h]`, `[ebx]{k1}`
    Memory {
        segment: u8,
        address: Address,
        mask: u8,
    },
}

// An accepted record, with its start address, which is 0 in version 1. `bits` are its length bits and `tail` its tail byte, which an
// extended record ends in; any other has 0 in both.
#[derive(Clone, Copy)]
pub struct Instruction {
    pub opcode: u16,
    pub flags: u8,
    pub length: u8,
    pub start: u32,
    pub size: u8,
    pub imm: u32,
    pub bits: u8,
    pub tail: u8,
    pub a: Operand,
    pub b: Operand,
    pub c: Operand,
    pub d: Operand,
}

// The size word before a memory operand. `Missing`: a label is called for and there is none.
#[derive(Clone, Copy)]
pub enum Label {
    // no text: `lea eax, [ebx]`
    None,
    // `byte ptr `
    Byte,
    // `word ptr `
    Word,
    // `dword ptr `
    Dword,
    // `qword ptr `
    Qword,
    // `xmmword ptr `
    Xmmword,
    // `ymmword ptr `
    Ymmword,
    // `zmmword ptr `
    Zmmword,
    // `mmword ptr `: `cvtsd2si eax, mmword ptr [ebx]`
    Mmword,
    // `fword ptr `: `lgdt fword ptr [ebx]`
    Fword,
    // `tbyte ptr `: `fld tbyte ptr [ebp - 0Ah]`
    Tbyte,
    // no text: the record is refused with 5
    Missing,
}

// The word before the `$` or the target of a branch.
#[derive(Clone, Copy)]
pub enum BranchWord {
    // no text: `call $+80h`
    None,
    // `short `
    Short,
    // `near ptr `
    Near,
}

// What stands after label and segment: nothing at all, a register by its byte, `st`, an immediate, an absolute of 4 or of 8
// digits, a bracket, a branch from `$`, or a branch's target.
#[derive(Clone, Copy)]
pub enum Shown {
    // no text
    Nothing,
    // `eax`, `st(0)`
    Name(u8),
    // `st`
    St,
    // `9`, `0FFFFFFFFh`
    Number(u32),
    // `[0ABCDh]`, `[0ABCh]`
    Word(u16),
    // `[00402000h]`
    Dword(u32),
    // `[ebx + esi * 4 - 10h]`
    Bracket(Address),
    // `$-80h`, `short $+80h`, `near ptr $+80h`
    Branch {
        word: BranchWord,
        minus: bool,
        size: u32,
    },
    // `00401019h`, `short 00401019h`, `near ptr 0FFFFFF80h`
    Target {
        word: BranchWord,
        target: u32,
    },
}

// One operand of a line. A segment of 0 is not shown, and neither is a mask of 0, which is the register byte of eax. A broadcast is the N
// of `{1toN}`, as in `{1to4}`.
#[derive(Clone, Copy)]
pub struct Item {
    pub label: Label,
    pub segment: u8,
    pub shown: Shown,
    pub mask: u8,
    pub broadcast: Option<u8>,
}

// What ends a line: a word of the Intel manual for the exceptions that are suppressed, and for how the result is rounded.
#[derive(Clone, Copy)]
pub enum Tail {
    // no text
    None,
    // ` {sae}`
    Sae,
    // ` {rn-sae}`
    Nearest,
    // ` {rd-sae}`
    Down,
    // ` {ru-sae}`
    Up,
    // ` {rz-sae}`
    Zero,
}

// The operands of a line, from the left.
#[derive(Clone, Copy)]
pub struct Items {
    pub a: Item,
    pub b: Item,
    pub c: Item,
    pub d: Item,
}
