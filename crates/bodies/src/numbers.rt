// The low bits of imm and disp that a kind takes.
ghost use Rattle.std.specs.Prelude.{◌≡◌};
ghost use Rattle.frames.specs.Numbers.{signed};
ghost use Rattle.bodies.specs.Decoding.{immediate, is_displaced, disp_in};

use operands::kinds::{BASE_DISP, BASE_INDEX_DISP, I8, I16, INDEX_DISP, U8, U16};

pub fn signed_of(bits: u32) -> i32
    ensures { result ≡ signed 32 bits }
{
    bits.cast_signed()
}

// By comparisons and no pattern, of which the compiler makes a table: a record with memory takes 4 % longer then.
pub fn is_displaced(kind: u8) -> bool
    ensures { result ≡ is_displaced kind }
{
    (kind == BASE_DISP) | (kind == INDEX_DISP) | (kind == BASE_INDEX_DISP)
}

#[tactic(auto, unfolding(crate::specs::Decoding::disp_in))]
pub fn displacement_of(kind: u8, disp: u32) -> i32
    ensures { result ≡ disp_in kind disp }
{
    if is_displaced(kind) {
        signed_of(disp)
    } else {
        0
    }
}

#[tactic(auto, unfolding(crate::specs::Decoding::immediate))]
pub fn immediate_of(kind: u8, imm: u32) -> u32
    ensures { result ≡ immediate kind imm }
{
    match kind {
        I8 => {
            let low = imm % 0x100;
            if low < 0x80 { low } else { low + 0xFFFF_FF00 }
        }
        I16 => {
            let low = imm % 0x1_0000;
            if low < 0x8000 { low } else { low + 0xFFFF_0000 }
        }
        U8 => imm % 0x100,
        U16 => imm % 0x1_0000,
        _ => imm,
    }
}
