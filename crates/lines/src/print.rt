// A whole line of a record that is not refused. The tables are lent.
#![tactic(auto, using(text::proofs::Putting::putting), unfolding(crate::specs::Text::line_text, crate::specs::Text::tail_word, bodies::specs::Decoding::instruction_of))]

ghost use Rattle.std.specs.Prelude.{◌≡◌, true, ◌≤◌};
ghost use Rattle.text.specs.Code.{Room, Put};
ghost use Rattle.bodies.specs.Body.{count_of};
ghost use Rattle.bodies.specs.Code.{fields_by, Whole, instruction_by};
ghost use Rattle.places.specs.Order.{from_the_left};
ghost use Rattle.places.specs.Places.{items_at};
ghost use Rattle.lines.specs.Text.{tail_word, line_by, line_text};

use crate::{heads, place};
use bodies::Body;
use branches::Mode;
use names::Arm;
use names::labels::LabelTable;
use names::opcodes::MnemonicTable;
use names::registers::RegisterTable;
use operands::Tail;
use places::Plan;

// What ends the line; most lines have no tail.
fn put_tail_word(buf: &mut [u8], at: usize, tail: Tail) -> usize
    requires { Room buf.old at (tail_word tail) }
    ensures { Put buf.old at (tail_word tail) result buf.new }
{
    match tail {
        Tail::None => at,
        Tail::Sae => text::put_bytes(buf, at, b" {sae}"),
        Tail::Nearest => text::put_bytes(buf, at, b" {rn-sae}"),
        Tail::Down => text::put_bytes(buf, at, b" {rd-sae}"),
        Tail::Up => text::put_bytes(buf, at, b" {ru-sae}"),
        Tail::Zero => text::put_bytes(buf, at, b" {rz-sae}"),
    }
}

pub fn put_line(
    buf: &mut [u8],
    at: usize,
    mnemonics: &MnemonicTable,
    registers: &RegisterTable,
    labels: &LabelTable,
    body: &Body,
    mode: Mode,
    arm: Arm,
    plan: Plan,
) -> usize
    requires rest_bound { count_of (fields_by body.now.front body.now.rest.now) ≤ 4 }
    requires plan_value { from_the_left (items_at mode arm (instruction_by body.now.front body.now.rest.now) plan) ≡ true }
    requires room { Room buf.old at (line_text (line_by mode arm plan (instruction_by body.now.front body.now.rest.now))) }
    ensures { Put buf.old at (line_text (line_by mode arm plan (instruction_by body.now.front body.now.rest.now))) result buf.new }
{
    let opcode = body.front.opcode();
    let flags = body.front.flags;
    let next = heads::put_head(buf, at, mnemonics, arm, opcode, flags);
    let next = place::put_places(buf, next, registers, labels, body, mode, arm, plan);
    let tail = plan.tail;
    put_tail_word(buf, next, tail)
}
