// A bracket: the parts that the operand's kind has, in document 01's order; and the mask after it.
#![tactic(auto, using(text::proofs::Putting::putting), unfolding(crate::specs::Brackets::base_text, crate::specs::Brackets::scale_text, crate::specs::Brackets::indexed_text, crate::specs::Brackets::index_text, crate::specs::Brackets::tail_text, crate::specs::Brackets::bracket_text, crate::specs::Brackets::mask_text, crate::specs::Brackets::masked_text))]

ghost use Rattle.std.specs.Prelude.{◌++◌};
ghost use Rattle.names.specs.Registers.{register_name};
ghost use Rattle.text.specs.Code.{Room, Put};
ghost use Rattle.text.specs.Words.{bytes};
ghost use Rattle.lines.specs.Brackets.{base_text, scale_text, indexed_text, index_text, tail_text, bracket_text, mask_text, masked_text};

use names::registers::RegisterTable;
use operands::Address;

fn put_base(buf: &mut [u8], at: usize, registers: &RegisterTable, based: bool, base: u8) -> usize
    requires { Room buf.old at (base_text based base) }
    ensures { Put buf.old at (base_text based base) result buf.new }
{
    if based {
        names::registers::put_register(buf, at, registers, base)
    } else {
        at
    }
}

fn put_scale(buf: &mut [u8], at: usize, scale: u8) -> usize
    requires { Room buf.old at (scale_text scale) }
    ensures { Put buf.old at (scale_text scale) result buf.new }
{
    if 1 < scale {
        let next = text::put_bytes(buf, at, b" * ");
        numerals::digits::put_digits(buf, next, 1, scale as u32)
    } else {
        at
    }
}

fn put_indexed(
    buf: &mut [u8],
    at: usize,
    registers: &RegisterTable,
    based: bool,
    index: u8,
    scale: u8,
) -> usize
    requires { Room buf.old at (indexed_text based index scale) }
    ensures { Put buf.old at (indexed_text based index scale) result buf.new }
{
    let next = text::put_when(buf, at, based, b" + ");
    let next = names::registers::put_register(buf, next, registers, index);
    put_scale(buf, next, scale)
}

fn put_index(buf: &mut [u8], at: usize, registers: &RegisterTable, a: Address) -> usize
    requires { Room buf.old at (index_text a) }
    ensures { Put buf.old at (index_text a) result buf.new }
{
    if a.indexed {
        put_indexed(buf, at, registers, a.based, a.index, a.scale)
    } else {
        at
    }
}

// The displacement, if any, and the end of the bracket.
fn put_tail(buf: &mut [u8], at: usize, displaced: bool, disp: i32) -> usize
    requires { Room buf.old at (tail_text displaced disp) }
    ensures { Put buf.old at (tail_text displaced disp) result buf.new }
{
    if displaced {
        let next = text::put_byte(buf, at, b' ');
        let next = numerals::displacement::masm_displacement(buf, next, disp);
        text::put_byte(buf, next, b']')
    } else {
        text::put_byte(buf, at, b']')
    }
}

#[tactic(auto, using(text::proofs::Putting::putting), unfolding(crate::specs::Brackets::bracket_text))]
pub fn put_bracket(buf: &mut [u8], at: usize, registers: &RegisterTable, a: Address) -> usize
    requires { Room buf.old at (bracket_text a) }
    ensures { Put buf.old at (bracket_text a) result buf.new }
{
    let next = text::put_byte(buf, at, b'[');
    let next = put_base(buf, next, registers, a.based, a.base);
    let next = put_index(buf, next, registers, a);
    put_tail(buf, next, a.displaced, a.disp)
}

fn put_braced(buf: &mut [u8], at: usize, registers: &RegisterTable, mask: u8) -> usize
    requires { Room buf.old at (bytes "{" ++ (register_name mask ++ bytes "}")) }
    ensures { Put buf.old at (bytes "{" ++ (register_name mask ++ bytes "}")) result buf.new }
{
    let next = text::put_byte(buf, at, b'{');
    let next = names::registers::put_register(buf, next, registers, mask);
    text::put_byte(buf, next, b'}')
}

// The mask; most operands have none, and a mask of 0 is not shown.
pub fn put_mask(buf: &mut [u8], at: usize, registers: &RegisterTable, mask: u8) -> usize
    requires { Room buf.old at (mask_text mask) }
    ensures { Put buf.old at (mask_text mask) result buf.new }
{
    if 0 < mask {
        put_braced(buf, at, registers, mask)
    } else {
        at
    }
}

// All twelve memory forms: the bracket, and the mask after it.
pub fn put_masked(
    buf: &mut [u8],
    at: usize,
    registers: &RegisterTable,
    a: Address,
    mask: u8,
) -> usize
    requires { Room buf.old at (masked_text a mask) }
    ensures { Put buf.old at (masked_text a mask) result buf.new }
{
    let next = put_bracket(buf, at, registers, a);
    put_mask(buf, next, registers, mask)
}
