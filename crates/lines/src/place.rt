// A place of a line, printed straight from the record's body.
#![tactic(auto, using(text::proofs::Putting::putting), unfolding(crate::specs::Items::absolute_text, crate::specs::Items::branch_text, crate::specs::Items::target_text, crate::specs::Fronts::label_text, crate::specs::Fronts::segment_text))]

ghost use Rattle.std.specs.Prelude.{◌≡◌, true, ◌≤◌};
ghost use Rattle.text.specs.Code.{Room, Put};
ghost use Rattle.bodies.specs.Body.{count_of};
ghost use Rattle.bodies.specs.Code.{fields_by, Whole, instruction_by};
ghost use Rattle.bodies.specs.Decoding.{operand_at};
ghost use Rattle.places.specs.Order.{from_the_left};
ghost use Rattle.places.specs.Places.{branch_of, item_at, items_at};
ghost use Rattle.lines.specs.Fronts.{segment_text};
ghost use Rattle.operands.specs.Parts.{register_of};
ghost use Rattle.lines.specs.Items.{absolute_text, sign_text, word_text, branch_text, target_text, shown_text, item_text};
ghost use Rattle.lines.specs.Text.{shows, items_text};
ghost use Rattle.lines.specs.Code.{shown_segment, shown_mask, front_text, end_text, shown_in, register_text, separator_at};

use crate::{bracket, broadcast};
use bodies::Body;
use branches::Mode;
use names::Arm;
use names::labels::{LabelTable, put_label};
use names::registers::{RegisterTable, put_register};
use operands::{BranchWord, Label, Operand, Shown};
use places::{Mask, Place, Plan, Segment};

fn put_word(buf: &mut [u8], at: usize, address: u16) -> usize
    requires { Room buf.old at (absolute_text 4 address) }
    ensures { Put buf.old at (absolute_text 4 address) result buf.new }
{
    let next = text::put_byte(buf, at, b'[');
    let next = numerals::absolute::put_absolute16(buf, next, address);
    text::put_byte(buf, next, b']')
}

fn put_dword(buf: &mut [u8], at: usize, address: u32) -> usize
    requires { Room buf.old at (absolute_text 8 address) }
    ensures { Put buf.old at (absolute_text 8 address) result buf.new }
{
    let next = text::put_byte(buf, at, b'[');
    let next = numerals::absolute::put_absolute32(buf, next, address);
    text::put_byte(buf, next, b']')
}

fn put_sign(buf: &mut [u8], at: usize, minus: bool) -> usize
    requires { Room buf.old at (sign_text minus) }
    ensures { Put buf.old at (sign_text minus) result buf.new }
{
    if minus {
        text::put_bytes(buf, at, b"$-")
    } else {
        text::put_bytes(buf, at, b"$+")
    }
}

fn put_branch_word(buf: &mut [u8], at: usize, word: BranchWord) -> usize
    requires { Room buf.old at (word_text word) }
    ensures { Put buf.old at (word_text word) result buf.new }
{
    match word {
        BranchWord::None => at,
        BranchWord::Short => text::put_bytes(buf, at, b"short "),
        BranchWord::Near => text::put_bytes(buf, at, b"near ptr "),
    }
}

fn put_sum(buf: &mut [u8], at: usize, word: BranchWord, minus: bool, size: u32) -> usize
    requires { Room buf.old at (branch_text word minus size) }
    ensures { Put buf.old at (branch_text word minus size) result buf.new }
{
    let next = put_branch_word(buf, at, word);
    let next = put_sign(buf, next, minus);
    numerals::numeral::put_numeral(buf, next, size)
}

// The target stands without a bracket.
fn put_target(buf: &mut [u8], at: usize, word: BranchWord, target: u32) -> usize
    requires { Room buf.old at (target_text word target) }
    ensures { Put buf.old at (target_text word target) result buf.new }
{
    let next = put_branch_word(buf, at, word);
    numerals::absolute::put_absolute32(buf, next, target)
}

// The branch of operand 0, with the word of this arm.
fn put_branch(buf: &mut [u8], at: usize, body: &Body, mode: Mode, arm: Arm) -> usize
    requires { Room buf.old at (shown_text (branch_of mode arm (instruction_by body.now.front body.now.rest.now))) }
    ensures { Put buf.old at (shown_text (branch_of mode arm (instruction_by body.now.front body.now.rest.now))) result buf.new }
{
    let shown = branches::branch_shown(
        mode,
        arm,
        body.immediate_kind_at(0),
        body.immediate_at(0),
        body.front.length,
        body.front.start,
    );
    match shown {
        Shown::Branch { word, minus, size } => put_sum(buf, at, word, minus, size),
        Shown::Target { word, target } => put_target(buf, at, word, target),
        _ => at,
    }
}

fn put_segment(buf: &mut [u8], at: usize, segment: u8) -> usize
    requires { Room buf.old at (segment_text segment) }
    ensures { Put buf.old at (segment_text segment) result buf.new }
{
    if 0 < segment {
        let next = names::segments::put_segment(buf, at, segment);
        text::put_byte(buf, next, b':')
    } else {
        at
    }
}

// A register, but `st` for st(0) where the place shortens it.
fn put_name(buf: &mut [u8], at: usize, registers: &RegisterTable, short: bool, reg: u8) -> usize
    requires { Room buf.old at (register_text short reg) }
    ensures { Put buf.old at (register_text short reg) result buf.new }
{
    if short & (reg == 32) {
        return text::put_bytes(buf, at, b"st");
    }
    put_register(buf, at, registers, reg)
}

// How a place shows its operand: all that the place says of it but which one it is.
#[derive(Clone, Copy)]
struct Manner {
    label: Label,
    segment: Segment,
    short: bool,
    mask: Mask,
    broadcast: Option<u8>,
}

impl Manner {
    // The segment that is shown of one that an operand has; 0 is none, and ds is 4.
    fn shown_segment(self, own: u8) -> u8
        ensures { result ≡ shown_segment self.segment own }
    {
        match self.segment {
            Segment::Hidden => 0,
            Segment::UnlessDs if own == 4 => 0,
            Segment::Shown | Segment::UnlessDs => own,
        }
    }

    // The mask that is shown: the one that an operand has, or operand 1's register.
    fn shown_mask(self, body: &Body, own: u8) -> u8
        ensures { result ≡ shown_mask self.mask own (register_of (operand_at (fields_by body.now.front body.now.rest.now) 1)) }
    {
        match self.mask {
            Mask::Itself => own,
            Mask::Second => body.register_at(1),
        }
    }

    // What stands before memory: its label and the segment that is shown. Joined to its callers, for a call takes what it is of through
    // memory.
    #[inline(always)]
    fn put_front(self, buf: &mut [u8], at: usize, labels: &LabelTable, own: u8) -> usize
        requires { Room buf.old at (front_text self.label (shown_segment self.segment own)) }
        ensures { Put buf.old at (front_text self.label (shown_segment self.segment own)) result buf.new }
    {
        let next = put_label(buf, at, labels, self.label as u8);
        put_segment(buf, next, self.shown_segment(own))
    }

    // What stands after an absolute: the mask that is shown and the broadcast.
    #[inline(always)]
    fn put_end(self, buf: &mut [u8], at: usize, registers: &RegisterTable, body: &Body) -> usize
        requires { Room buf.old at (end_text (shown_mask self.mask 0 (register_of (operand_at (fields_by body.now.front body.now.rest.now) 1))) self.broadcast) }
        ensures { Put buf.old at (end_text (shown_mask self.mask 0 (register_of (operand_at (fields_by body.now.front body.now.rest.now) 1))) self.broadcast) result buf.new }
    {
        let next = bracket::put_mask(buf, at, registers, self.shown_mask(body, 0));
        broadcast::put_broadcast(buf, next, self.broadcast)
    }

    fn put_operand(
        self,
        buf: &mut [u8],
        at: usize,
        registers: &RegisterTable,
        labels: &LabelTable,
        body: &Body,
        operand: Operand,
    ) -> usize
        requires { Room buf.old at (item_text (shown_in self (register_of (operand_at (fields_by body.now.front body.now.rest.now) 1)) operand)) }
        ensures { Put buf.old at (item_text (shown_in self (register_of (operand_at (fields_by body.now.front body.now.rest.now) 1)) operand)) result buf.new }
    {
        match operand {
            Operand::Absent => at,
            Operand::Register { reg, .. } => put_name(buf, at, registers, self.short, reg),
            Operand::Imm { value, .. } => numerals::numeral::put_numeral(buf, at, value),
            Operand::Absolute16 { segment, address } => {
                let next = self.put_front(buf, at, labels, segment);
                let next = put_word(buf, next, address);
                self.put_end(buf, next, registers, body)
            }
            Operand::Absolute32 { segment, address } => {
                let next = self.put_front(buf, at, labels, segment);
                let next = put_dword(buf, next, address);
                self.put_end(buf, next, registers, body)
            }
            Operand::Memory {
                segment,
                address,
                mask,
            } => {
                let next = self.put_front(buf, at, labels, segment);
                let mask = self.shown_mask(body, mask);
                let next = bracket::put_masked(buf, next, registers, address, mask);
                broadcast::put_broadcast(buf, next, self.broadcast)
            }
        }
    }
}

// What a place shows, where it shows something.
fn put_place(
    buf: &mut [u8],
    at: usize,
    registers: &RegisterTable,
    labels: &LabelTable,
    body: &Body,
    mode: Mode,
    arm: Arm,
    place: Place,
) -> usize
    requires rest_bound { count_of (fields_by body.now.front body.now.rest.now) ≤ 4 }
    requires room { Room buf.old at (item_text (item_at mode arm (instruction_by body.now.front body.now.rest.now) place)) }
    ensures { Put buf.old at (item_text (item_at mode arm (instruction_by body.now.front body.now.rest.now) place)) result buf.new }
{
    match place {
        Place::Nothing => at,
        Place::Register(reg) => put_register(buf, at, registers, reg),
        Place::Branch => put_branch(buf, at, body, mode, arm),
        Place::Operand {
            k,
            label,
            segment,
            short,
            mask,
            broadcast,
        } => {
            let manner = Manner {
                label,
                segment,
                short,
                mask,
                broadcast,
            };
            manner.put_operand(buf, at, registers, labels, body, body.operand_at(k))
        }
    }
}

// Whether a place shows something.
fn shows_something(body: &Body, place: Place) -> bool
    requires rest_bound { count_of (fields_by body.now.front body.now.rest.now) ≤ 4 }
    ensures { (mode : Mode) (arm : Arm) → result ≡ shows (item_at mode arm (instruction_by body.now.front body.now.rest.now) place).shown }
{
    match place {
        Place::Nothing => false,
        Place::Register(_) | Place::Branch => true,
        Place::Operand { k, .. } => k < body.count(),
    }
}

// What parts the operand at place k from the text before it.
fn put_separator(buf: &mut [u8], at: usize, k: usize) -> usize
    requires { Room buf.old at (separator_at k) }
    ensures { Put buf.old at (separator_at k) result buf.new }
{
    if k == 0 {
        text::put_byte(buf, at, b' ')
    } else {
        text::put_bytes(buf, at, b", ")
    }
}

// The places of a plan, each after what parts it from the text before, up to the first that shows nothing.
pub fn put_places(
    buf: &mut [u8],
    at: usize,
    registers: &RegisterTable,
    labels: &LabelTable,
    body: &Body,
    mode: Mode,
    arm: Arm,
    plan: Plan,
) -> usize
    requires rest_bound { count_of (fields_by body.now.front body.now.rest.now) ≤ 4 }
    requires plan_value { from_the_left (items_at mode arm (instruction_by body.now.front body.now.rest.now) plan) ≡ true }
    requires room { Room buf.old at (items_text (items_at mode arm (instruction_by body.now.front body.now.rest.now) plan)) }
    ensures { Put buf.old at (items_text (items_at mode arm (instruction_by body.now.front body.now.rest.now) plan)) result buf.new }
{
    let places = [plan.a, plan.b, plan.c, plan.d];
    let mut next = at;
    for (k, place) in places.iter().enumerate() {
        if !shows_something(body, *place) {
            return next;
        }
        next = put_separator(buf, next, k);
        next = put_place(buf, next, registers, labels, body, mode, arm, *place);
    }
    next
}
