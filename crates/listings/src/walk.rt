// One loop for all that is printed: the frames of a listing one after the other, or a body alone.
ghost use Rattle.std.specs.Prelude.{◌≡◌, ◌≤◌, ◌<◌, Some, None, IfOk, IfErr, length, drop};
ghost use Rattle.text.specs.Code.{Room};
ghost use Rattle.listings.specs.Code.{front_of, start_of, place_of, stands_at, Stepped, Walkable, Walks};

use crate::{Next, Walked};
use answers::Reason;
use frames::Frame;
use names::Tables;
use records::Asked;
use records::put::put_record;

// What stands at a place: alone, a body up to the end; else a frame, where it is whole.
fn stands_at(bytes: &[u8], at: usize, alone: bool) -> Option<Frame>
    requires { at ≤ length bytes.now }
    ensures { result ≡ stands_at alone bytes.now at }
{
    if alone {
        return Some(Frame {
            start: at,
            end: bytes.len(),
        });
    }
    frames::frame_at(bytes, at)
}

// The text of what stands at a place.
fn put_next(
    tables: &Tables,
    bytes: &[u8],
    at: usize,
    asked: Asked,
    alone: bool,
    text: &mut [u8],
    out: usize,
) -> Next
    requires at_in_bounds { at ≤ length bytes.now }
    requires room { Room text.old out (front_of alone asked (drop at bytes.now)) }
    ensures { Stepped alone asked bytes.now at text.old out result text.new }
{
    match stands_at(bytes, at, alone) {
        Some(Frame { start, end }) => {
            let placed = put_record(tables, &bytes[start..end], asked, alone, text, out);
            Next {
                at: end,
                out: placed.out,
                refused: placed.refused,
            }
        }
        None => Next {
            at: bytes.len(),
            out: text::put_bytes(text, out, b"; cut\n"),
            refused: None,
        },
    }
}

// Where it begins: a listing after its version byte.
fn start_of(alone: bool) -> usize
    ensures { result ≡ start_of alone }
{
    if alone { 0 } else { 1 }
}

// Where the next text is put: aside, at the start; else after those before it.
fn place_of(aside: bool, total: usize) -> usize
    ensures { result ≡ place_of aside total }
{
    if aside { 0 } else { total }
}

// All of it, in a buffer that has the room; or aside, each text at the start of a scratch array, so that only their length is known
// then. It is one loop, so that the compiler joins the print of a record into it.
pub fn walk(
    tables: &Tables,
    bytes: &[u8],
    asked: Asked,
    alone: bool,
    aside: bool,
    text: &mut [u8],
) -> Walked
    requires bytes_nonzero { 0 < length bytes.now }
    requires walkable { Walkable alone aside asked bytes.now text.old }
    ensures { Walks alone aside asked bytes.now text.old result text.new }
{
    let mut at = start_of(alone);
    let mut total = 0;
    let mut refused = None;
    let mut place = 0;
    while at < bytes.len() {
        let next = put_next(tables, bytes, at, asked, alone, text, place);
        at = next.at;
        refused = next.refused;
        total += next.out - place;
        place = place_of(aside, total);
    }
    Walked { refused, total }
}

impl Walked {
    // How many bytes of text there are, or why a record alone has none.
    pub fn printed(self) -> Result<usize, Reason>
        ensures ok { IfOk result (λ printed. (self.refused ≡ None) × (printed ≡ self.total)) }
        ensures err { IfErr result (λ reason. self.refused ≡ Some reason) }
    {
        match self.refused {
            None => Ok(self.total),
            Some(reason) => Err(reason),
        }
    }
}
