// An absolute: all its digits, and always an h.
ghost use Rattle.std.specs.Prelude.{◌≡◌};
ghost use Rattle.text.specs.Code.{Room, Put};
ghost use Rattle.numerals.specs.Digits.{top};
ghost use Rattle.numerals.specs.Numerals.{absolute as absolute_of};

use crate::numeral;

// An absolute of k digits, whose top one the caller has at hand.
fn put_absolute(buf: &mut [u8], at: usize, k: usize, digit: u32, v: u32) -> usize
    requires digit_value { digit ≡ top k v }
    requires room { Room buf.old at (absolute_of k v) }
    ensures { Put buf.old at (absolute_of k v) result buf.new }
{
    let next = numeral::put_figure(buf, at, k, digit, v);
    text::put_byte(buf, next, b'h')
}

pub fn put_absolute16(buf: &mut [u8], at: usize, v: u16) -> usize
    requires { Room buf.old at (absolute_of 4 v) }
    ensures { Put buf.old at (absolute_of 4 v) result buf.new }
{
    put_absolute(buf, at, 4, (v / 0x1000) as u32, v as u32)
}

pub fn put_absolute32(buf: &mut [u8], at: usize, v: u32) -> usize
    requires { Room buf.old at (absolute_of 8 v) }
    ensures { Put buf.old at (absolute_of 8 v) result buf.new }
{
    put_absolute(buf, at, 8, v / 0x1000_0000, v)
}
