// A whole listing in a lent buffer.
ghost use Rattle.std.specs.Prelude.{◌≡◌, ◌≤◌, ◌<◌, length, drop};
ghost use Rattle.answers.specs.Outcomes.{Gives};
ghost use Rattle.answers.specs.Code.{text_outcome};
ghost use Rattle.listings.specs.Lines.{lines_of};
ghost use Rattle.listings.specs.Listings.{size_limit, listing_outcome};

use crate::walk::walk;
use crate::{ASIDE, IN_PLACE, LISTED};
use answers::{Answer, Reason, Refused};
use lines::LONGEST_LINE;
use names::Tables;
use records::Asked;
use records::judge::in_version;

// "listing over 16,777,216 bytes"
const SIZE_LIMIT: usize = 16_777_216;

// No listing has more bytes of lines than this many times its own: see `Rooms`.
const ROOM_FACTOR: usize = 9;

// The lines of a listing, of the version that is asked. They are measured first only where they might not fit.
fn print_lines(tables: &Tables, listing: &[u8], asked: Asked, text: &mut [u8]) -> Answer
    requires listing_nonzero { (0 < length listing.now) × (length listing.now ≤ size_limit) }
    ensures { Gives (text_outcome (lines_of asked (drop 1 listing.now)) text.old) result text.new }
{
    if text.len() < ROOM_FACTOR * listing.len() {
        let mut aside = [0; LONGEST_LINE + 1];
        let measured = walk(tables, listing, asked, LISTED, ASIDE, &mut aside);
        if text.len() < measured.total {
            return Err(Refused::Room {
                needed: measured.total,
            });
        }
    }
    let printed = walk(tables, listing, asked, LISTED, IN_PLACE, text);
    Ok(printed.total)
}

pub fn print_listing(tables: &Tables, listing: &[u8], asked: Asked, text: &mut [u8]) -> Answer
    ensures { Gives (listing_outcome asked listing.now text.old) result text.new }
{
    if 2 < asked.mode {
        return Err(Refused::For(Reason::Mode));
    }
    if SIZE_LIMIT < listing.len() {
        return Err(Refused::For(Reason::Length));
    }
    if listing.is_empty() {
        return answers::print_text(b"; cut\n", text);
    }
    let version = frames::numbers::byte_at(listing, 0);
    if frames::known_version(version) {
        return print_lines(tables, listing, in_version(version, asked), text);
    }
    answers::print_text(b"; version\n", text)
}
