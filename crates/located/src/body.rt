// A body in hex, 40 bytes to a line.
ghost use Rattle.std.specs.Prelude.{◌≡◌};
ghost use Rattle.text.specs.Code.{Room, Put};
ghost use Rattle.located.specs.Parts.{per_line, pair, on_line, pairs, body_text};
ghost use Rattle.located.specs.Code.{PutOn};

use numerals::digits::put_digits;

// How many bytes of a body stand on a line.
pub const PER_LINE: usize = 40;

// A byte of a body: where it was put, and for how many more the line has room.
#[derive(Clone, Copy)]
pub struct Row {
    pub out: usize,
    pub room: usize,
}

fn put_pair(text: &mut [u8], at: usize, b: u8) -> usize
    requires { Room text.old at (pair b) }
    ensures { Put text.old at (pair b) result text.new }
{
    let next = text::put_bytes(text, at, b" ");
    put_digits(text, next, 2, b as u32)
}

fn put_on_line(text: &mut [u8], at: usize, room: usize, b: u8) -> Row
    requires { Room text.old at (on_line room b) }
    ensures { PutOn room b text.old at result.out result.room text.new }
{
    if room == 0 {
        let next = text::put_bytes(text, at, b"\n; +");
        let out = put_pair(text, next, b);
        return Row {
            out,
            room: PER_LINE - 1,
        };
    }
    let out = put_pair(text, at, b);
    Row {
        out,
        room: room - 1,
    }
}

fn put_pairs(text: &mut [u8], at: usize, body: &[u8]) -> usize
    requires { Room text.old at (pairs per_line body.now) }
    ensures { Put text.old at (pairs per_line body.now) result text.new }
{
    let mut out = at;
    let mut room = PER_LINE;
    for b in body {
        let row = put_on_line(text, out, room, *b);
        out = row.out;
        room = row.room;
    }
    out
}

// A body without bytes is a word.
pub fn put_body(text: &mut [u8], at: usize, body: &[u8]) -> usize
    requires { Room text.old at (body_text body.now) }
    ensures { Put text.old at (body_text body.now) result text.new }
{
    if body.len() == 0 {
        text::put_bytes(text, at, b" empty")
    } else {
        put_pairs(text, at, body)
    }
}
