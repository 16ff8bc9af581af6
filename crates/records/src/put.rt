// A record at a place of a lent buffer: alone, or as a line of a listing.
ghost use Rattle.std.specs.Prelude.{◌≡◌, Some, IfOk, IfErr};
ghost use Rattle.text.specs.Code.{Room, Put};
ghost use Rattle.answers.specs.Reasons.{number_of};
ghost use Rattle.answers.specs.Refusals.{answer_of};
ghost use Rattle.records.specs.Records.{refusals};
ghost use Rattle.records.specs.Judged.{Accepts, refused_as, text_of, Puts};

use crate::{Accepted, Asked, Placed, judge};
use answers::Reason;
use bodies::layout::{front_of, rest_at};
use lines::print::put_line;
use names::Tables;
use names::opcodes::Arms;

// A record that is refused: alone it has no text, in a listing a line.
fn put_refused(alone: bool, reason: Reason, text: &mut [u8], at: usize) -> Placed
    requires { Room text.old at (refused_as alone (number_of reason)) }
    ensures refused_value { result.refused ≡ Some reason }
    ensures put { Put text.old at (refused_as alone (number_of reason)) result.out text.new }
{
    let out = if alone {
        at
    } else {
        answers::put_refused(text, at, reason.number())
    };
    Placed {
        refused: Some(reason),
        out,
    }
}

// What is asked comes first, and a body that ends before its rest begins is too short. The front is read once, for the judgement and
// for the line.
fn judge<'a>(arms: &Arms, body: &'a [u8], asked: Asked) -> Result<Accepted<'a>, Reason>
    ensures ok { IfOk result (λ r. Accepts asked body.now r.arm r.plan r.body.front r.body.rest.now) }
    ensures err { IfErr result (λ why. number_of why ≡ answer_of (refusals asked body.now)) }
{
    if judge::asked_refused(asked) {
        return Err(Reason::Mode);
    }
    let start = rest_at(asked.version);
    if body.len() < start {
        return Err(Reason::Length);
    }
    judge::judge_fields(arms, front_of(asked.version, body), &body[start..])
}

// A record in a listing is a line, which ends in a newline; alone it is its text.
pub fn put_record(
    tables: &Tables,
    body: &[u8],
    asked: Asked,
    alone: bool,
    text: &mut [u8],
    at: usize,
) -> Placed
    requires { Room text.old at (text_of alone asked body.now) }
    ensures { Puts alone asked body.now text.old at result.refused result.out text.new }
{
    match judge(&tables.arms, body, asked) {
        Err(reason) => put_refused(alone, reason, text, at),
        Ok(record) => {
            let next = put_line(
                text,
                at,
                &tables.mnemonics,
                &tables.registers,
                &tables.labels,
                &record.body,
                judge::mode_of(asked),
                record.arm,
                record.plan,
            );
            let out = text::put_when(text, next, !alone, b"\n");
            Placed { refused: None, out }
        }
    }
}
