// One of the two listings: what stands at its place.
ghost use Rattle.std.specs.Prelude.{◌≡◌, drop, option_copied};
ghost use Rattle.cursors.specs.Code.{Sees};
ghost use Rattle.compared.specs.Places.{start_of};
ghost use Rattle.compared.specs.Code.{wanting, body_in};

use crate::Side;
use cursors::Stands;
use cursors::reader::Reader;
use frames::numbers::byte_at;

// The bytes that are held of a listing, a place in them, and whether the listing has ended.
#[derive(Clone, Copy)]
pub struct Reading<'a> {
    pub reader: Reader<'a>,
    pub ended: bool,
}

impl<'a> Reading<'a> {
    pub fn new(listing: &'a [u8], at: usize, ended: bool) -> Self
        ensures { ((result.reader.listing.now ≡ listing.now) × (result.reader.at ≡ at)) × (result.ended ≡ ended) }
    {
        Reading {
            reader: Reader::new(listing, at),
            ended,
        }
    }

    // The next byte is still to come.
    pub fn is_wanting(self) -> bool
        ensures { result ≡ wanting (drop self.entry.reader.at self.entry.reader.listing.now) self.entry.ended }
    {
        !self.ended && self.reader.listing.len() <= self.reader.at
    }

    // What stands before record 0.
    pub fn start(self) -> Side
        ensures { result ≡ start_of (drop self.entry.reader.at self.entry.reader.listing.now) }
    {
        let Reader { listing, at } = self.reader;
        if listing.len() <= at {
            Side::Cut
        } else if frames::known_version(byte_at(listing, at)) {
            Side::Sound
        } else {
            Side::Version
        }
    }

    // What stands at the place.
    pub fn stands(self) -> Stands
        ensures { Sees self.entry.reader.listing.now self.entry.reader.at self.entry.ended result }
    {
        self.reader.stands(self.ended)
    }

    // The body of the record that stands there, if one does.
    pub fn body(self, stands: Stands) -> Option<&'a [u8]>
        requires { Sees self.reader.listing.now self.reader.at self.ended stands }
        ensures { option_copied result ≡ body_in self.entry.reader.listing.now stands }
    {
        match stands {
            Stands::Body { start, end } => Some(&self.reader.listing[start..end]),
            _ => None,
        }
    }
}
