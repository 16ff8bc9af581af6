// What is said of each side, and the last line.
#![tactic(auto, using(text::proofs::Putting::putting), unfolding(crate::specs::Text::side_text, crate::specs::Text::count_line, crate::specs::Text::end_text))]

ghost use Rattle.std.specs.Prelude.{◌≡◌};
ghost use Rattle.text.specs.Code.{Room, Put};
ghost use Rattle.compared.specs.Report.{is_sound, in_versions, not_same};
ghost use Rattle.compared.specs.Text.{side_text, count_line, end_text};

use crate::{AskedSides, Side};
use numerals::decimals::put_decimal;
use records::Asked;
use records::judge::in_version;

// The same asked of both sides, of records of their versions.
pub fn in_versions(first: u32, second: u32, asked: Asked) -> AskedSides
    ensures { result ≡ in_versions first second asked }
{
    AskedSides {
        first: in_version(first, asked),
        second: in_version(second, asked),
    }
}

impl Side {
    pub fn is_sound(self) -> bool
        ensures { result ≡ is_sound self }
    {
        matches!(self, Side::Sound)
    }
}

// Whether anything is reported.
pub fn not_same(named: u64, first: Side, second: Side) -> bool
    ensures { result ≡ not_same named first second }
{
    0 < named || !first.is_sound() || !second.is_sound()
}

fn put_side(text: &mut [u8], at: usize, name: &[u8], side: Side) -> usize
    requires { Room text.old at (side_text name.now side) }
    ensures { Put text.old at (side_text name.now side) result text.new }
{
    match side {
        Side::Sound => at,
        Side::Cut => {
            let next = text::put_bytes(text, at, name);
            text::put_bytes(text, next, b"; cut\n")
        }
        Side::Version => {
            let next = text::put_bytes(text, at, name);
            text::put_bytes(text, next, b"; version\n")
        }
    }
}

fn put_count(text: &mut [u8], at: usize, named: u64) -> usize
    requires { Room text.old at (count_line named) }
    ensures { Put text.old at (count_line named) result text.new }
{
    let next = text::put_bytes(text, at, b"differing records: ");
    let next = put_decimal(text, next, named);
    text::put_byte(text, next, b'\n')
}

pub fn put_end(text: &mut [u8], at: usize, first: Side, second: Side, named: u64) -> usize
    requires { Room text.old at (end_text first second named) }
    ensures { Put text.old at (end_text first second named) result text.new }
{
    let next = put_side(text, at, b"first: ", first);
    let next = put_side(text, next, b"second: ", second);
    put_count(text, next, named)
}
