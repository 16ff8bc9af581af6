// A listing and a place in it, handed about as one: what is asked of it is answered in `standing`, on a plain slice.
ghost use Rattle.std.specs.Prelude.{◌≡◌};
ghost use Rattle.cursors.specs.Code.{place_after, Sees};

use crate::Stands;
use crate::standing::stands_at;

#[derive(Clone, Copy)]
pub struct Reader<'a> {
    pub listing: &'a [u8],
    pub at: usize,
}

impl<'a> Reader<'a> {
    // A reader at a place.
    pub fn new(listing: &'a [u8], at: usize) -> Self
        ensures { (result.listing ≡ listing.entry) × (result.at ≡ at) }
    {
        Reader { listing, at }
    }

    // What stands there.
    pub fn stands(self, ended: bool) -> Stands
        ensures { Sees self.entry.listing.now self.entry.at ended result }
    {
        stands_at(self.listing, self.at, ended)
    }

    // The reader after what stands there.
    pub fn moved(self, over: Stands) -> Self
        ensures { (result.listing ≡ self.entry.listing) × (result.at ≡ place_after self.entry.at over) }
    {
        Reader {
            listing: self.listing,
            at: over.place_after(self.at),
        }
    }
}
