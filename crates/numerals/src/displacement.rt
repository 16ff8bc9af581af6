// A displacement: its sign and the numeral of its size.
ghost use Rattle.std.specs.Prelude.{◌≡◌, nat_abs};
ghost use Rattle.text.specs.Code.{Room, Put};
ghost use Rattle.numerals.specs.Numerals.{sign, displacement as displacement_of};

use crate::numeral;

// The size of the whole number: the least one has a size too.
pub fn size_of(disp: i32) -> u32
    ensures { result ≡ nat_abs disp }
{
    disp.unsigned_abs()
}

fn put_sign(buf: &mut [u8], at: usize, disp: i32) -> usize
    requires { Room buf.old at (sign disp) }
    ensures { Put buf.old at (sign disp) result buf.new }
{
    if disp < 0 {
        text::put_bytes(buf, at, b"- ")
    } else {
        text::put_bytes(buf, at, b"+ ")
    }
}

pub fn masm_displacement(buf: &mut [u8], at: usize, disp: i32) -> usize
    requires { Room buf.old at (displacement_of disp) }
    ensures { Put buf.old at (displacement_of disp) result buf.new }
{
    let next = put_sign(buf, at, disp);
    numeral::put_numeral(buf, next, size_of(disp))
}
