// The numeral of a number of 32 bits.
ghost use Rattle.std.specs.Prelude.{◌≡◌, leb};
ghost use Rattle.text.specs.Code.{Room, Put};
ghost use Rattle.numerals.specs.Digits.{top};
ghost use Rattle.numerals.specs.Numerals.{figure, hex_ambiguous, numeral as numeral_of};

use crate::digits;

// MASM takes a word that begins with a letter for a name: by the top digit.
pub fn needs_leading_0(digit: u32) -> bool
    ensures { result ≡ leb 10 digit }
{
    10 <= digit
}

// k digits, with a 0 in front where the top one is a letter: the one place where numerals and absolutes meet.
pub fn put_figure(buf: &mut [u8], at: usize, k: usize, digit: u32, v: u32) -> usize
    requires digit_value { digit ≡ top k v }
    requires room { Room buf.old at (figure k v) }
    ensures { Put buf.old at (figure k v) result buf.new }
{
    let next = text::put_when(buf, at, needs_leading_0(digit), b"0");
    digits::put_digits(buf, next, k, v)
}

// MASM reads a number above 9 as hexadecimal only with an h.
pub fn hex_ambiguous(v: u32) -> bool
    ensures { result ≡ hex_ambiguous v }
{
    9 < v
}

pub fn put_numeral(buf: &mut [u8], at: usize, v: u32) -> usize
    requires { Room buf.old at (numeral_of v) }
    ensures { Put buf.old at (numeral_of v) result buf.new }
{
    let t = digits::top_of(v);
    let next = put_figure(buf, at, t.places, t.digit, v);
    text::put_when(buf, next, hex_ambiguous(v), b"h")
}
