// What is said of one record: its number and its place, its line, and its body.
ghost use Rattle.std.specs.Prelude.{◌≡◌, ◌<◌};
ghost use Rattle.text.specs.Code.{Room, Put};
ghost use Rattle.answers.specs.Reasons.{answer_as};
ghost use Rattle.located.specs.Parts.{head_line, shown_text, comment_text, record_part};
ghost use Rattle.located.specs.Code.{refusal_text, Says};

use crate::body::put_body;
use answers::Reason;
use names::Tables;
use numerals::decimals::put_decimal;
use records::put::put_record;
use records::{Asked, Placed};

fn put_head(text: &mut [u8], at: usize, number: u64, offset: u64) -> usize
    requires { Room text.old at (head_line number offset) }
    ensures { Put text.old at (head_line number offset) result text.new }
{
    let next = text::put_bytes(text, at, b"; record ");
    let next = put_decimal(text, next, number);
    let next = text::put_bytes(text, next, b" at byte ");
    let next = put_decimal(text, next, offset);
    text::put_byte(text, next, b'\n')
}

fn put_refusal(text: &mut [u8], at: usize, refused: Option<Reason>) -> usize
    requires { Room text.old at (refusal_text (answer_as refused)) }
    ensures { Put text.old at (refusal_text (answer_as refused)) result text.new }
{
    match refused {
        None => at,
        Some(reason) => answers::put_refusal(text, at, reason.number()),
    }
}

// The record's line without its newline, put in the one way in which every record is: alone, and where it is refused, by its number.
fn put_shown(tables: &Tables, body: &[u8], asked: Asked, text: &mut [u8], at: usize) -> Placed
    requires { Room text.old at (shown_text asked body.now) }
    ensures { Says asked body.now (shown_text asked body.now) text.old at result.refused result.out text.new }
{
    let placed = put_record(tables, body, asked, true, text, at);
    let out = put_refusal(text, placed.out, placed.refused);
    Placed {
        refused: placed.refused,
        out,
    }
}

fn put_comment(text: &mut [u8], at: usize, body: &[u8]) -> usize
    requires { Room text.old at (comment_text body.now) }
    ensures { Put text.old at (comment_text body.now) result text.new }
{
    let next = text::put_bytes(text, at, b" ;");
    let next = put_body(text, next, body);
    text::put_byte(text, next, b'\n')
}

pub fn put_part(
    tables: &Tables,
    number: u64,
    offset: u64,
    body: &[u8],
    asked: Asked,
    text: &mut [u8],
    at: usize,
) -> Placed
    requires { Room text.old at (record_part asked number offset body.now) }
    ensures { Says asked body.now (record_part asked number offset body.now) text.old at result.refused result.out text.new }
{
    let next = put_head(text, at, number, offset);
    let placed = put_shown(tables, body, asked, text, next);
    let out = put_comment(text, placed.out, body);
    Placed {
        refused: placed.refused,
        out,
    }
}
