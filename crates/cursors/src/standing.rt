// What stands at a place in a plain slice.
ghost use Rattle.std.specs.Prelude.{◌≡◌};
ghost use Rattle.cursors.specs.Code.{at_end, unfinished, Sees};

use crate::Stands;
use frames::{Frame, frame_at};

// No bytes are left. Where no more are to come, that is the end.
fn at_end(ended: bool) -> Stands
    ensures { result ≡ at_end ended }
{
    if ended { Stands::End } else { Stands::More }
}

// Too few bytes are left for a frame. Where no more are to come, that is known.
fn unfinished(ended: bool) -> Stands
    ensures { result ≡ unfinished ended }
{
    if ended { Stands::Cut } else { Stands::More }
}

pub fn stands_at(listing: &[u8], at: usize, ended: bool) -> Stands
    ensures { Sees listing.now at ended result }
{
    if listing.len() <= at {
        return at_end(ended);
    }
    match frame_at(listing, at) {
        Some(Frame { start, end }) => Stands::Body { start, end },
        None => unfinished(ended),
    }
}
