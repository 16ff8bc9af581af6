// A listing that arrives in parts: what the listing programs repeat. A frame can be longer than their buffer, but a longer body than
// any that is right is refused by what is asked or by its length alone, so its bytes are only counted.
ghost use Rattle.std.specs.Prelude.{◌≡◌, ◌+◌, ◌≤◌, length};
ghost use Rattle.text.specs.Code.{Room, Put};
ghost use Rattle.answers.specs.Reasons.{number_of, answer_as};
ghost use Rattle.lines.specs.Text.{longest_line};
ghost use Rattle.streams.specs.Stream.{version_step, skip_step, frame_step, stepped, skipped, refused_by, Alive, begun_of};
ghost use Rattle.streams.specs.Code.{Took};

use crate::{Stage, Step};
use answers::Reason;
use bodies::rules::LONGEST_BODY;
use names::Tables;
use records::Asked;
use records::judge::{asked_refused, in_version};
use records::put::put_record;

fn step_version(input: &[u8], text: &mut [u8], out: usize) -> Step<Stage>
    requires { out + longest_line + 1 ≤ length text.old }
    ensures { Took (version_step input.now) text.old out result text.new }
{
    if input.len() == 0 {
        return Step {
            stage: Stage::Version,
            used: 0,
            out,
            records: 0,
            refused: 0,
        };
    }
    let version = frames::numbers::byte_at(input, 0);
    if frames::known_version(version) {
        return Step {
            stage: Stage::Frames { version },
            used: 1,
            out,
            records: 0,
            refused: 0,
        };
    }
    let next = text::put_bytes(text, out, b"; version\n");
    Step {
        stage: Stage::Done,
        used: 1,
        out: next,
        records: 0,
        refused: 0,
    }
}

// A body that is too long for any record is refused by its length, unless what is asked is refused: that is asked first.
fn skipped_for(asked: Asked) -> Reason
    ensures { number_of result ≡ skipped asked }
{
    if asked_refused(asked) {
        Reason::Mode
    } else {
        Reason::Length
    }
}

fn step_skip(
    left: usize,
    size: usize,
    version: u32,
    input: &[u8],
    asked: Asked,
    text: &mut [u8],
    out: usize,
) -> Step<Stage>
    requires { out + longest_line + 1 ≤ length text.old }
    ensures { Took (skip_step left size version asked input.now) text.old out result text.new }
{
    let here = input.len();
    if here < left {
        return Step {
            stage: Stage::Skip {
                left: left - here,
                size,
                version,
            },
            used: here,
            out,
            records: 0,
            refused: 0,
        };
    }
    let next = answers::put_refused(text, out, skipped_for(in_version(version, asked)).number());
    Step {
        stage: Stage::Frames { version },
        used: left,
        out: next,
        records: 1,
        refused: 1,
    }
}

// A frame is refused, or not, as its record's answer says.
pub fn refused_by(number: u8) -> usize
    ensures { result ≡ refused_by number }
{
    if 0 < number { 1 } else { 0 }
}

// The same of the reason, where there is one.
pub fn refused_for(refused: Option<Reason>) -> usize
    ensures { result ≡ refused_by (answer_as refused) }
{
    match refused {
        None => refused_by(0),
        Some(reason) => refused_by(reason.number()),
    }
}

fn step_frame(
    tables: &Tables,
    version: u32,
    input: &[u8],
    asked: Asked,
    text: &mut [u8],
    out: usize,
) -> Step<Stage>
    requires longest_line_in_bounds { out + longest_line + 1 ≤ length text.old }
    ensures { Took (frame_step version asked input.now) text.old out result text.new }
{
    if input.len() < 2 {
        return Step {
            stage: Stage::Frames { version },
            used: 0,
            out,
            records: 0,
            refused: 0,
        };
    }
    let size = frames::numbers::word_at(input, 0) as usize;
    if LONGEST_BODY < size {
        return Step {
            stage: Stage::Skip {
                left: size,
                size: 2 + size,
                version,
            },
            used: 2,
            out,
            records: 0,
            refused: 0,
        };
    }
    let end = 2 + size;
    if input.len() < end {
        return Step {
            stage: Stage::Frames { version },
            used: 0,
            out,
            records: 0,
            refused: 0,
        };
    }
    let placed = put_record(
        tables,
        &input[2..end],
        in_version(version, asked),
        false,
        text,
        out,
    );
    Step {
        stage: Stage::Frames { version },
        used: end,
        out: placed.out,
        records: 1,
        refused: refused_for(placed.refused),
    }
}

pub fn step(
    tables: &Tables,
    stage: Stage,
    input: &[u8],
    asked: Asked,
    text: &mut [u8],
    out: usize,
) -> Step<Stage>
    requires longest_line_in_bounds { out + longest_line + 1 ≤ length text.old }
    ensures { Took (stepped asked stage input.now) text.old out result text.new }
{
    match stage {
        Stage::Version => step_version(input, text, out),
        Stage::Frames { version } => step_frame(tables, version, input, asked, text, out),
        Stage::Skip {
            left,
            size,
            version,
        } => step_skip(left, size, version, input, asked, text, out),
        Stage::Done => Step {
            stage: Stage::Done,
            used: input.len(),
            out,
            records: 0,
            refused: 0,
        },
    }
}

// How many bytes of a frame that has begun were used.
pub fn begun(stage: Stage) -> usize
    requires { Alive stage }
    ensures { result ≡ begun_of stage }
{
    match stage {
        Stage::Version => 0,
        Stage::Frames { version } => 0,
        Stage::Skip {
            left,
            size,
            version,
        } => size - left,
        Stage::Done => 0,
    }
}
