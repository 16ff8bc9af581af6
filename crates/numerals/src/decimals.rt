// Numbers in decimal.
ghost use Rattle.text.specs.Code.{Room, Put};
ghost use Rattle.numerals.specs.Decimals.{decimal as decimal_of};

// The number's digits but the last, by a call of itself, and the last.
pub fn put_decimal(buf: &mut [u8], at: usize, n: u64) -> usize
    requires { Room buf.old at (decimal_of n) }
    ensures { Put buf.old at (decimal_of n) result buf.new }
{
    if n < 10 {
        return text::put_byte(buf, at, b'0' + n as u8);
    }
    let next = put_decimal(buf, at, n / 10);
    text::put_byte(buf, next, b'0' + (n % 10) as u8)
}
