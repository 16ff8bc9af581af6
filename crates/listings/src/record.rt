// One record in a lent buffer.
ghost use Rattle.std.specs.Prelude.{◌≡◌, [], ◌≤◌, ◌<◌, length};
ghost use Rattle.lines.specs.Text.{longest_line};
ghost use Rattle.answers.specs.Outcomes.{Gives};
ghost use Rattle.answers.specs.Reasons.{number_of};
ghost use Rattle.answers.specs.Refusals.{answer_of};
ghost use Rattle.records.specs.Records.{refusals, record_outcome};

use crate::walk::walk;
use crate::{ALONE, IN_PLACE};
use answers::{Answer, Reason, Refused};
use lines::LONGEST_LINE;
use names::Tables;
use records::Asked;
use records::judge::asked_refused;

// A record that is printed aside first: answer 6's length is what that took.
fn print_aside(
    tables: &Tables,
    body: &[u8],
    asked: Asked,
    aside: &mut [u8],
    text: &mut [u8],
) -> Answer
    requires body_nonzero { 0 < length body.now }
    requires longest_line_in_bounds { longest_line ≤ length aside.old }
    ensures { Gives (record_outcome asked body.now text.old) result text.new }
{
    let needed = walk(tables, body, asked, ALONE, IN_PLACE, aside).printed()?;
    answers::print_text(&aside[..needed], text)
}

// No bytes are no record's, in every mode and version that there is.
fn of_no_bytes(asked: Asked) -> Reason
    ensures { number_of result ≡ answer_of (refusals asked []) }
{
    if asked_refused(asked) {
        Reason::Mode
    } else {
        Reason::Length
    }
}

// In a buffer for the longest line a record is printed at once.
pub fn print_record(tables: &Tables, body: &[u8], asked: Asked, text: &mut [u8]) -> Answer
    ensures { Gives (record_outcome asked body.now text.old) result text.new }
{
    if body.is_empty() {
        return Err(Refused::For(of_no_bytes(asked)));
    }
    if LONGEST_LINE <= text.len() {
        let printed = walk(tables, body, asked, ALONE, IN_PLACE, text).printed()?;
        return Ok(printed);
    }
    let mut aside = [0; LONGEST_LINE];
    print_aside(tables, body, asked, &mut aside, text)
}
