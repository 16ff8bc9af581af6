// What stands before the operands: prefix words, the mnemonic and its suffix, from the arm, the opcode and the flags.
#![tactic(auto, using(text::proofs::Putting::putting), unfolding(crate::specs::Text::reps_text, crate::specs::Text::prefixes_text, crate::specs::Text::name_text, crate::specs::Text::head_text, crate::specs::Head::head_of))]

ghost use Rattle.std.specs.Prelude.{◌≡◌, ◌++◌, ◌/◌, ◌%◌, ◌<◌, eqb};
ghost use Rattle.text.specs.Choice.{when};
ghost use Rattle.text.specs.Words.{bytes};
ghost use Rattle.text.specs.Code.{Room, Put};
ghost use Rattle.lines.specs.Head.{can_rep, name_of, suffixed as is_suffixed, head_of};
ghost use Rattle.lines.specs.Text.{prefixes_text, reps_text, name_text, head_text};

use names::Arm;
use names::opcodes::MnemonicTable;

// One bit of the flags, by its weight.
fn flag(flags: u8, weight: u8) -> bool
    requires { 0 < weight }
    ensures { result ≡ eqb (flags / weight % 2) 1 }
{
    flags / weight % 2 == 1
}

fn can_rep(arm: Arm) -> bool
    ensures { result ≡ can_rep arm }
{
    matches!(arm, Arm::Movs | Arm::Cmps | Arm::Scas | Arm::Lods)
}

fn suffixed(arm: Arm, flags: u8) -> bool
    ensures { result ≡ is_suffixed arm flags }
{
    match arm {
        Arm::Incssp | Arm::Wrss => true,
        Arm::Pushf => !flag(flags, 32),
        _ => false,
    }
}

// rep or repne, before string opcodes alone; both flags print rep.
fn put_reps(buf: &mut [u8], at: usize, arm: Arm, flags: u8) -> usize
    requires { Room buf.old at (reps_text (head_of arm 0 flags)) }
    ensures { Put buf.old at (reps_text (head_of arm 0 flags)) result buf.new }
{
    let can = can_rep(arm);
    let rep = flag(flags, 8);
    let next = text::put_when(buf, at, can & rep, b"rep ");
    text::put_when(buf, next, can & (!rep & flag(flags, 16)), b"repne ")
}

fn put_flagged(buf: &mut [u8], at: usize, arm: Arm, flags: u8) -> usize
    requires { Room buf.old at (prefixes_text (head_of arm 0 flags)) }
    ensures { Put buf.old at (prefixes_text (head_of arm 0 flags)) result buf.new }
{
    let next = text::put_when(buf, at, flag(flags, 1), b"xacquire ");
    let next = text::put_when(buf, next, flag(flags, 2), b"xrelease ");
    let next = text::put_when(buf, next, flag(flags, 4), b"lock ");
    put_reps(buf, next, arm, flags)
}

// The prefix words; most records have none, and no flag set.
fn put_prefixes(buf: &mut [u8], at: usize, arm: Arm, flags: u8) -> usize
    requires { Room buf.old at (prefixes_text (head_of arm 0 flags)) }
    ensures { Put buf.old at (prefixes_text (head_of arm 0 flags)) result buf.new }
{
    if flags == 0 {
        return at;
    }
    put_flagged(buf, at, arm, flags)
}

fn put_name(buf: &mut [u8], at: usize, mnemonics: &MnemonicTable, arm: Arm, opcode: u16) -> usize
    requires { Room buf.old at (name_text (name_of arm opcode)) }
    ensures { Put buf.old at (name_text (name_of arm opcode)) result buf.new }
{
    match arm {
        Arm::Jmpf => text::put_bytes(buf, at, b"jmp"),
        Arm::Callf => text::put_bytes(buf, at, b"call"),
        Arm::Feni => text::put_bytes(buf, at, b"feni"),
        Arm::Fdisi => text::put_bytes(buf, at, b"fdisi"),
        Arm::Fsetpm => text::put_bytes(buf, at, b"fsetpm"),
        _ => names::opcodes::put_mnemonic(buf, at, mnemonics, opcode),
    }
}

pub fn put_head(
    buf: &mut [u8],
    at: usize,
    mnemonics: &MnemonicTable,
    arm: Arm,
    opcode: u16,
    flags: u8,
) -> usize
    requires { Room buf.old at (head_text (head_of arm opcode flags)) }
    ensures { Put buf.old at (head_text (head_of arm opcode flags)) result buf.new }
{
    let next = put_prefixes(buf, at, arm, flags);
    let next = put_name(buf, next, mnemonics, arm, opcode);
    text::put_when(buf, next, suffixed(arm, flags), b"d")
}
