// One step: the version bytes, or one place of both listings.
ghost use Rattle.std.specs.Prelude.{◌+◌, ◌≤◌, length};
ghost use Rattle.compared.specs.Text.{longest_event};
ghost use Rattle.compared.specs.Code.{Steps};

use crate::events::note;
use crate::reading::Reading;
use crate::settle::settle;
use crate::sides::{in_versions, not_same, put_end};
use crate::{Next, Passed, Stage, Turn};
use frames::numbers::byte_at;
use names::Tables;
use records::Asked;

fn step_versions(
    first: Reading,
    second: Reading,
    asked: Asked,
    text: &mut [u8],
    out: usize,
) -> Passed
    requires within { (first.reader.at ≤ length first.reader.listing.now) × (second.reader.at ≤ length second.reader.listing.now) }
    requires longest_event_in_bounds { out + longest_event ≤ length text.old }
    ensures { Steps asked Stage.Versions first.entry.reader.listing.now second.entry.reader.listing.now first.entry.reader.at second.entry.reader.at first.entry.ended second.entry.ended text.old out result text.new }
{
    let here = Passed {
        stage: Stage::Versions,
        first: first.reader.at,
        second: second.reader.at,
        out,
        next: Next::On,
    };
    if first.is_wanting() {
        return Passed {
            next: Next::First,
            ..here
        };
    }
    if second.is_wanting() {
        return Passed {
            next: Next::Second,
            ..here
        };
    }
    let (one, other) = (first.start(), second.start());
    if not_same(0, one, other) {
        return Passed {
            stage: Stage::Done { different: true },
            out: put_end(text, out, one, other, 0),
            next: Next::Nothing,
            ..here
        };
    }
    Passed {
        stage: Stage::Records {
            number: 0,
            named: 0,
            first_version: byte_at(first.reader.listing, first.reader.at),
            second_version: byte_at(second.reader.listing, second.reader.at),
        },
        first: first.reader.at + 1,
        second: second.reader.at + 1,
        ..here
    }
}

fn step_records(
    tables: &Tables,
    number: u64,
    named: u64,
    first_version: u32,
    second_version: u32,
    first: Reading,
    second: Reading,
    asked: Asked,
    text: &mut [u8],
    out: usize,
) -> Passed
    requires within { (first.reader.at ≤ length first.reader.listing.now) × (second.reader.at ≤ length second.reader.listing.now) }
    requires longest_event_in_bounds { out + longest_event ≤ length text.old }
    ensures { Steps asked (Stage.Records number named first_version second_version) first.entry.reader.listing.now second.entry.reader.listing.now first.entry.reader.at second.entry.reader.at first.entry.ended second.entry.ended text.old out result text.new }
{
    let here = Passed {
        stage: Stage::Records {
            number,
            named,
            first_version,
            second_version,
        },
        first: first.reader.at,
        second: second.reader.at,
        out,
        next: Next::On,
    };
    let (one, other) = (first.stands(), second.stands());
    match settle(one, other) {
        Turn::First => Passed {
            next: Next::First,
            ..here
        },
        Turn::Second => Passed {
            next: Next::Second,
            ..here
        },
        Turn::Ends {
            first: a,
            second: b,
        } => Passed {
            stage: Stage::Done {
                different: not_same(named, a, b),
            },
            out: put_end(text, out, a, b, named),
            next: Next::Nothing,
            ..here
        },
        Turn::Records { .. } => {
            let sides = in_versions(first_version, second_version, asked);
            let (a, b) = (first.body(one), second.body(other));
            let noted = note(tables, number, named, a, b, sides, text, out);
            Passed {
                stage: Stage::Records {
                    number: number.saturating_add(1),
                    named: noted.named,
                    first_version,
                    second_version,
                },
                first: one.place_after(first.reader.at),
                second: other.place_after(second.reader.at),
                out: noted.out,
                next: Next::On,
            }
        }
    }
}

pub fn step(
    tables: &Tables,
    stage: Stage,
    first: Reading,
    second: Reading,
    asked: Asked,
    text: &mut [u8],
    out: usize,
) -> Passed
    requires within { (first.reader.at ≤ length first.reader.listing.now) × (second.reader.at ≤ length second.reader.listing.now) }
    requires longest_event_in_bounds { out + longest_event ≤ length text.old }
    ensures { Steps asked stage first.entry.reader.listing.now second.entry.reader.listing.now first.entry.reader.at second.entry.reader.at first.entry.ended second.entry.ended text.old out result text.new }
{
    match stage {
        Stage::Versions => step_versions(first, second, asked, text, out),
        Stage::Records {
            number,
            named,
            first_version,
            second_version,
        } => step_records(
            tables,
            number,
            named,
            first_version,
            second_version,
            first,
            second,
            asked,
            text,
            out,
        ),
        Stage::Done { different } => Passed {
            stage: Stage::Done { different },
            first: first.reader.at,
            second: second.reader.at,
            out,
            next: Next::Nothing,
        },
    }
}
