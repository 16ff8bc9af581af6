// What is said of one record: that it differs, with both lines or the one that both have, or that it stands on one side only.
#![tactic(auto, using(text::proofs::Putting::putting), unfolding(crate::specs::Code::head_text, crate::specs::Code::only_text, crate::specs::Text::kind_text, records::specs::Judged::text_of))]

ghost use Rattle.std.specs.Prelude.{◌+◌, ◌≤◌, length, option_copied};
ghost use Rattle.text.specs.Code.{Room, Put};
ghost use Rattle.records.specs.Lines.{record_line};
ghost use Rattle.compared.specs.Events.{kind_of};
ghost use Rattle.compared.specs.Text.{kind_text, longest_event};
ghost use Rattle.lines.specs.Text.{longest_line};
ghost use Rattle.compared.specs.Code.{found_of, Notes, LineAside, head_text, differing_text, only_text};

use crate::same::same_bytes;
use crate::{AskedSides, Noted};
use lines::LONGEST_LINE;
use names::Tables;
use numerals::decimals::put_decimal;
use records::Asked;
use records::put::put_record;

fn put_number(text: &mut [u8], at: usize, number: u64) -> usize
    requires { Room text.old at (head_text number) }
    ensures { Put text.old at (head_text number) result text.new }
{
    let next = text::put_bytes(text, at, b"record ");
    put_decimal(text, next, number)
}

// Both lines, or the one that both have.
fn put_lines(text: &mut [u8], at: usize, first: &[u8], second: &[u8]) -> usize
    requires { Room text.old at (kind_text (kind_of first.now second.now)) }
    ensures { Put text.old at (kind_text (kind_of first.now second.now)) result text.new }
{
    if same_bytes(first, second) {
        let next = text::put_bytes(text, at, b" differs, same line\n  both:   ");
        return text::put_bytes(text, next, first);
    }
    let next = text::put_bytes(text, at, b" differs\n  first:  ");
    let next = text::put_bytes(text, next, first);
    let next = text::put_bytes(text, next, b"  second: ");
    text::put_bytes(text, next, second)
}

// A record's line, in an array that is lent for it.
fn line_of(tables: &Tables, body: &[u8], asked: Asked, line: &mut [u8]) -> usize
    requires longest_line_in_bounds { longest_line + 1 ≤ length line.old }
    ensures { LineAside asked body.now result line.new }
{
    let placed = put_record(tables, body, asked, false, line, 0);
    placed.out
}

// A record that stands on both sides, with different bodies.
fn put_differing(
    tables: &Tables,
    number: u64,
    first: &[u8],
    second: &[u8],
    sides: AskedSides,
    text: &mut [u8],
    at: usize,
) -> usize
    requires longest_event_in_bounds { at + longest_event ≤ length text.old }
    ensures { Put text.old at (differing_text sides number first.now second.now) result text.new }
{
    let mut first_line = [0; LONGEST_LINE + 1];
    let mut second_line = [0; LONGEST_LINE + 1];
    let first_length = line_of(tables, first, sides.first, &mut first_line);
    let second_length = line_of(tables, second, sides.second, &mut second_line);
    let next = put_number(text, at, number);
    put_lines(
        text,
        next,
        &first_line[..first_length],
        &second_line[..second_length],
    )
}

// What is said of a record that stands on one side only, after its number: words, and its line.
fn put_only(
    tables: &Tables,
    number: u64,
    words: &[u8],
    body: &[u8],
    asked: Asked,
    text: &mut [u8],
    at: usize,
) -> usize
    requires room { Room text.old at (only_text asked number words.now body.now) }
    ensures { Put text.old at (only_text asked number words.now body.now) result text.new }
{
    let next = put_number(text, at, number);
    let next = text::put_bytes(text, next, words);
    let placed = put_record(tables, body, asked, false, text, next);
    placed.out
}

// What is said of a record, by its bodies: nothing where both sides have the same, or neither has one.
pub fn note(
    tables: &Tables,
    number: u64,
    named: u64,
    first: Option<&[u8]>,
    second: Option<&[u8]>,
    sides: AskedSides,
    text: &mut [u8],
    at: usize,
) -> Noted
    requires longest_event_in_bounds { at + longest_event ≤ length text.old }
    ensures { Notes sides number named (found_of (option_copied first.entry)) (found_of (option_copied second.entry)) text.old at result text.new }
{
    let out = match (first, second) {
        (None, None) => return Noted { out: at, named },
        (Some(body), None) => put_only(
            tables,
            number,
            b" only in the first\n  first:  ",
            body,
            sides.first,
            text,
            at,
        ),
        (None, Some(body)) => put_only(
            tables,
            number,
            b" only in the second\n  second: ",
            body,
            sides.second,
            text,
            at,
        ),
        (Some(one), Some(other)) => {
            if same_bytes(one, other) {
                return Noted { out: at, named };
            }
            put_differing(tables, number, one, other, sides, text, at)
        }
    };
    Noted {
        out,
        named: named.saturating_add(1),
    }
}
