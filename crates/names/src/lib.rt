// The words of a line: the opcodes' names, registers, segments and labels, each a constant table of one text with offsets; register
// names that differ in a digit alone are built. All tables but the segments' are made once, as one value above the loop over the
// records, and lent from there: a constant is stored to the stack at each use.
#![tactic(auto)]

pub mod labels;
pub mod opcodes;
pub mod registers;
pub mod segments;

// The arms of document 000 in its order, after the variants of its general path. Where two opcodes of one arm print different
// names, suffixes or words before `$`, they are arms of their own, so that after this the opcode serves for the name alone.
#[derive(Clone, Copy)]
pub enum Arm {
    General,
    Qword,
    Mmword,
    Jmpf,
    Callf,
    Lds,
    Movs,
    Cmps,
    Singles,
    Doubles,
    Branch,
    Call,
    Xbegin,
    Feni,
    Fdisi,
    Fsetpm,
    Hreset,
    Lsl,
    Prefetch,
    Sgdt,
    Lss,
    Nop,
    ScatterDword,
    ScatterQword,
    Monitor,
    Mwait,
    Invlpgb,
    Rdpru,
    Scas,
    Lods,
    Psmash,
    Pvalidate,
    Incssp,
    Wrss,
    Pblendvb,
    Lea,
    Pushf,
    Aam,
    Fcom,
    Fadd,
    Fbld,
    Fbstp,
}

// All that is lent. Each table says by its type that its words are the right ones.
#[derive(Drop)]
pub struct Tables {
    pub mnemonics: opcodes::MnemonicTable,
    pub registers: registers::RegisterTable,
    pub labels: labels::LabelTable,
    pub arms: opcodes::Arms,
}

impl Tables {
    pub fn new() -> Self {
        Tables {
            mnemonics: opcodes::mnemonics(),
            registers: registers::registers(),
            labels: labels::labels(),
            arms: opcodes::Arms::new(),
        }
    }
}
