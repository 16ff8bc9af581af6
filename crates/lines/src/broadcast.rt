// What stands after memory that is broadcast: `{1to8}`.
#![tactic(auto, using(text::proofs::Putting::putting), unfolding(crate::specs::Items::broadcast_text, numerals::specs::Decimals::decimal_within))]

ghost use Rattle.std.specs.Prelude.{◌++◌};
ghost use Rattle.text.specs.Code.{Room, Put};
ghost use Rattle.text.specs.Words.{bytes};
ghost use Rattle.numerals.specs.Decimals.{decimal_within};
ghost use Rattle.lines.specs.Items.{broadcast_text};

// The last two digits of a number, or the one that it has.
fn put_two_digits(buf: &mut [u8], at: usize, n: u8) -> usize
    requires { Room buf.old at (decimal_within 2 n) }
    ensures { Put buf.old at (decimal_within 2 n) result buf.new }
{
    if n < 10 {
        return text::put_byte(buf, at, 48 + n);
    }
    let next = text::put_byte(buf, at, 48 + n / 10 % 10);
    text::put_byte(buf, next, 48 + n % 10)
}

fn put_one_to(buf: &mut [u8], at: usize, n: u8) -> usize
    requires { Room buf.old at (bytes "{1to" ++ (decimal_within 2 n ++ bytes "}")) }
    ensures { Put buf.old at (bytes "{1to" ++ (decimal_within 2 n ++ bytes "}")) result buf.new }
{
    let next = text::put_bytes(buf, at, b"{1to");
    let next = put_two_digits(buf, next, n);
    text::put_byte(buf, next, b'}')
}

pub fn put_broadcast(buf: &mut [u8], at: usize, broadcast: Option<u8>) -> usize
    requires { Room buf.old at (broadcast_text broadcast) }
    ensures { Put buf.old at (broadcast_text broadcast) result buf.new }
{
    match broadcast {
        None => at,
        Some(n) => put_one_to(buf, at, n),
    }
}
