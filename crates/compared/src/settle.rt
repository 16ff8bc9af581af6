// What is to be done at a place of both listings, by what stands on each side.
ghost use Rattle.std.specs.Prelude.{◌≡◌};
ghost use Rattle.compared.specs.Code.{frame_of, turn_of};

use crate::{Side, Turn};
use cursors::Stands;
use frames::Frame;

fn ends(first: Side, second: Side) -> Turn
    ensures { result ≡ Turn.Ends first second }
{
    Turn::Ends { first, second }
}

// The frame of the record that stands there, if one does.
fn frame_of(stands: Stands) -> Option<Frame>
    ensures { result ≡ frame_of stands }
{
    match stands {
        Stands::Body { start, end } => Some(Frame { start, end }),
        _ => None,
    }
}

// First bytes that are wanted, then sides that are cut, then records.
pub fn settle(first: Stands, second: Stands) -> Turn
    ensures { result ≡ turn_of first second }
{
    match (first, second) {
        (Stands::More, _) => Turn::First,
        (_, Stands::More) => Turn::Second,
        (Stands::Cut, Stands::Cut) => ends(Side::Cut, Side::Cut),
        (Stands::Cut, _) => ends(Side::Cut, Side::Sound),
        (_, Stands::Cut) => ends(Side::Sound, Side::Cut),
        (Stands::End, Stands::End) => ends(Side::Sound, Side::Sound),
        _ => Turn::Records {
            first: frame_of(first),
            second: frame_of(second),
        },
    }
}
