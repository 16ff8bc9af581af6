// One step: the version byte, or a whole frame.
ghost use Rattle.std.specs.Prelude.{◌≡◌, ◌+◌, ◌≤◌, length};
ghost use Rattle.located.specs.Parts.{longest_part};
ghost use Rattle.located.specs.Code.{Steps};

use crate::Stage;
use crate::part::put_part;
use names::Tables;
use records::Asked;
use records::judge::in_version;
use streams::Step;
use streams::stream::refused_for;

fn step_version(input: &[u8], asked: Asked, text: &mut [u8], out: usize) -> Step<Stage>
    requires { out + longest_part ≤ length text.old }
    ensures { Steps asked Stage.Version input.now text.old out result text.new }
{
    if input.len() == 0 {
        return Step {
            stage: Stage::Version,
            used: 0,
            out,
            records: 0,
            refused: 0,
        };
    }
    let version = frames::numbers::byte_at(input, 0);
    if frames::known_version(version) {
        return Step {
            stage: Stage::Frames {
                number: 0,
                offset: 1,
                version,
            },
            used: 1,
            out,
            records: 0,
            refused: 0,
        };
    }
    let next = text::put_bytes(text, out, b"; version\n");
    Step {
        stage: Stage::Done,
        used: 1,
        out: next,
        records: 0,
        refused: 0,
    }
}

fn step_frame(
    tables: &Tables,
    number: u64,
    offset: u64,
    version: u32,
    input: &[u8],
    asked: Asked,
    text: &mut [u8],
    out: usize,
) -> Step<Stage>
    requires longest_part_in_bounds { out + longest_part ≤ length text.old }
    ensures { Steps asked (Stage.Frames number offset version) input.now text.old out result text.new }
{
    if input.len() < 2 {
        return Step {
            stage: Stage::Frames {
                number,
                offset,
                version,
            },
            used: 0,
            out,
            records: 0,
            refused: 0,
        };
    }
    let end = 2 + frames::numbers::word_at(input, 0) as usize;
    if input.len() < end {
        return Step {
            stage: Stage::Frames {
                number,
                offset,
                version,
            },
            used: 0,
            out,
            records: 0,
            refused: 0,
        };
    }
    let placed = put_part(
        tables,
        number,
        offset,
        &input[2..end],
        in_version(version, asked),
        text,
        out,
    );
    Step {
        stage: Stage::Frames {
            number: number.wrapping_add(1),
            offset: offset.wrapping_add(end as u64),
            version,
        },
        used: end,
        out: placed.out,
        records: 1,
        refused: refused_for(placed.refused),
    }
}

pub fn step(
    tables: &Tables,
    stage: Stage,
    input: &[u8],
    asked: Asked,
    text: &mut [u8],
    out: usize,
) -> Step<Stage>
    requires longest_part_in_bounds { out + longest_part ≤ length text.old }
    ensures { Steps asked stage input.now text.old out result text.new }
{
    match stage {
        Stage::Version => step_version(input, asked, text, out),
        Stage::Frames {
            number,
            offset,
            version,
        } => step_frame(tables, number, offset, version, input, asked, text, out),
        Stage::Done => Step {
            stage: Stage::Done,
            used: 0,
            out,
            records: 0,
            refused: 0,
        },
    }
}
