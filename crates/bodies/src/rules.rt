// The record rules of documents 01 and 02: which bodies are refused.
ghost use Rattle.std.specs.Prelude.{◌≡◌, not, ◌&&◌, ◌≤◌, eqb, length, IfOk, IfErr};
ghost use Rattle.answers.specs.Reasons.{number_of};
ghost use Rattle.bodies.specs.Body.{opcode_of, is_scatter, is_extended};
ghost use Rattle.bodies.specs.Refusals.{length_refused, field_refused, operand_refused, segment_kept, register_kept, index_kept, first_kept, second_kept, scale_kept, mask_kept, flags_kept};
ghost use Rattle.bodies.specs.Code.{fields_by, Whole, OldWhole, body_answer};
ghost use Rattle.bodies.specs.Document01.{old_first_kept, old_second_kept, old_operand_refused, old_field_refused, old_length_refused};

use crate::{Body, Front, stored};
use answers::Reason;
use names::opcodes::OPCODES;
use operands::kinds::{
    ABSOLUTE_16, BASE, BASE_INDEX, BASE_INDEX_DISP, INDEX, INDEX_DISP, MASKED_MOST, REGISTER_M,
    REGISTER_R,
};

// The longest body whose length can be right, which is one of version 2: the count is a byte, and every operand may have a mask.
pub const LONGEST_BODY: usize = 1550;

// A body in which an operand has a mask is walked: where an operand stands, the masks before it say. One whose bytes end before its
// operands do is refused, whatever the kinds of the others would be.
fn walked_refused(front: Front, rest: &[u8]) -> bool
    requires { 10 ≤ length rest.now }
    ensures { result ≡ length_refused (fields_by front rest.now) }
{
    let count = frames::numbers::byte_at(rest, 9);
    let mut masked = false;
    let mut at = 10;
    for _ in 0..count {
        if rest.len() <= at {
            return true;
        }
        masked |= stored::is_masked(rest[at]);
        at = stored::place_after(rest, at);
    }
    if stored::is_vector_opcode(front.opcode()) | masked {
        rest.len() != at + 2
    } else {
        rest.len() != at
    }
}

// Until an operand has a mask, each takes five bytes.
pub fn length_refused(front: Front, rest: &[u8]) -> bool
    ensures { result ≡ length_refused (fields_by front rest.now) }
{
    if rest.len() < 10 {
        return true;
    }
    let count = frames::numbers::byte_at(rest, 9) as usize;
    let end = 10 + 5 * count;
    if rest.len() < end {
        return true;
    }
    for k in 0..count {
        if stored::is_masked(rest[10 + 5 * k]) {
            return walked_refused(front, rest);
        }
    }
    if stored::is_vector_opcode(front.opcode()) {
        rest.len() != end + 2
    } else {
        rest.len() != end
    }
}

#[tactic(auto, unfolding(crate::specs::Refusals::segment_kept))]
fn segment_kept(form: u8, segment: u8) -> bool
    ensures { result ≡ segment_kept form segment }
{
    if ABSOLUTE_16 <= form {
        segment <= 6
    } else {
        segment == 0
    }
}

fn register_kept(extended: bool, reg: u8) -> bool
    ensures { result ≡ register_kept extended reg }
{
    (reg < 80) & (reg != 30) & (reg != 31) & ((reg < 64) | extended)
}

fn index_kept(vectors: bool, reg: u8) -> bool
    ensures { result ≡ index_kept vectors reg }
{
    (reg < 16) | (vectors & ((6 <= reg / 8) & (reg / 8 <= 8)))
}

#[tactic(auto, unfolding(crate::specs::Refusals::first_kept))]
fn first_kept(extended: bool, vectors: bool, form: u8, first: u8) -> bool
    ensures { result ≡ first_kept extended vectors form first }
{
    match form {
        ..=REGISTER_M => register_kept(extended, first),
        INDEX | INDEX_DISP => index_kept(vectors, first),
        BASE.. => first < 16,
        _ => first == 0,
    }
}

#[tactic(auto, unfolding(crate::specs::Refusals::second_kept))]
fn second_kept(vectors: bool, form: u8, second: u8) -> bool
    ensures { result ≡ second_kept vectors form second }
{
    if BASE_INDEX <= form {
        index_kept(vectors, second)
    } else {
        second == 0
    }
}

#[tactic(auto, unfolding(crate::specs::Refusals::scale_kept))]
fn scale_kept(form: u8, scale: u8) -> bool
    ensures { result ≡ scale_kept form scale }
{
    if INDEX <= form {
        matches!(scale, 1 | 2 | 4 | 8)
    } else {
        scale == 0
    }
}

// The mask of a kind that has one. It is 0 in any other.
#[tactic(auto, unfolding(crate::specs::Refusals::mask_kept))]
fn mask_kept(kind: u8, mask: u8) -> bool
    ensures { result ≡ mask_kept kind mask }
{
    if stored::is_masked(kind) {
        (72 < mask) & (mask < 80)
    } else {
        mask == 0
    }
}

// Operand k, where it is stored. A VPSCATTER's operand 0 scatters. Joined to its caller, as the functions of `kinds` are.
#[inline(always)]
fn operand_refused(body: &Body, k: u8, extended: bool, scatters: bool) -> bool
    requires extended_value { extended ≡ is_extended (fields_by body.now.front body.now.rest.now) }
    requires scatters_value { scatters ≡ (eqb k 0 && is_scatter (opcode_of (fields_by body.now.front body.now.rest.now))) }
    ensures { result ≡ operand_refused (fields_by body.now.front body.now.rest.now) k }
{
    let Some(at) = body.place_of(k) else {
        return false;
    };
    let kind = body.rest[at];
    let vectors = scatters & !stored::is_masked(kind);
    let form = stored::form_of(kind);
    let segment = segment_kept(form, body.rest[at + 1]);
    let first = first_kept(extended, vectors, form, body.rest[at + 2]);
    let second = second_kept(vectors, form, body.rest[at + 3]);
    let scale = scale_kept(form, body.rest[at + 4]);
    let mask = mask_kept(kind, body.mask_at(k, at));
    !((REGISTER_R <= kind) & (kind <= MASKED_MOST) & segment & first & second & scale & mask)
}

fn flags_kept(extended: bool, flags: u8) -> bool
    ensures { result ≡ flags_kept extended flags }
{
    if extended { flags < 128 } else { flags < 64 }
}

#[tactic(auto, unfolding(crate::specs::Refusals::field_refused))]
pub fn field_refused(body: &Body) -> bool
    ensures { result ≡ field_refused (fields_by body.now.front body.now.rest.now) }
{
    let opcode = body.front.opcode();
    let extended = body.is_extended();
    let scatters = (stored::VECTOR_LEAST <= opcode) & (opcode <= stored::SCATTER_MOST);
    let flags = flags_kept(extended, body.front.flags);
    let length = body.front.length;
    let count = body.rest[9];
    let a = operand_refused(body, 0, extended, scatters);
    let b = operand_refused(body, 1, extended, false);
    let c = operand_refused(body, 2, extended, false);
    let d = operand_refused(body, 3, extended, false);
    let bits = body.bits();
    let tail = body.tail();
    (OPCODES <= opcode as usize)
        | !flags
        | (length < 1)
        | (15 < length)
        | (4 < count)
        | a
        | b
        | c
        | d
        | (3 < bits)
        | (2 < tail)
}

// ---- A record of document 01's own, which most are. It keeps that document's rules, and then it keeps all of these.

fn old_first_kept(kind: u8, first: u8) -> bool
    ensures { result ≡ old_first_kept kind first }
{
    match kind {
        ..=REGISTER_M => (first < 64) & (first != 30) & (first != 31),
        BASE.. => first < 16,
        _ => first == 0,
    }
}

fn old_second_kept(kind: u8, second: u8) -> bool
    ensures { result ≡ old_second_kept kind second }
{
    if BASE_INDEX <= kind {
        second < 16
    } else {
        second == 0
    }
}

// Operand k, where it is stored.
fn old_operand_refused(front: Front, rest: &[u8], k: usize) -> bool
    requires { OldWhole (fields_by front rest.now) }
    ensures { result ≡ old_operand_refused (fields_by front rest.now) k }
{
    if k < (frames::numbers::byte_at(rest, 9) as usize) {
        let at = 10 + 5 * k;
        let kind = rest[at];
        let segment = segment_kept(kind, rest[at + 1]);
        let first = old_first_kept(kind, rest[at + 2]);
        let second = old_second_kept(kind, rest[at + 3]);
        let scale = scale_kept(kind, rest[at + 4]);
        !((REGISTER_R <= kind) & (kind <= BASE_INDEX_DISP) & segment & first & second & scale)
    } else {
        false
    }
}

#[tactic(auto, unfolding(crate::specs::Document01::old_field_refused))]
fn old_field_refused(front: Front, rest: &[u8]) -> bool
    requires { OldWhole (fields_by front rest.now) }
    ensures { result ≡ old_field_refused (fields_by front rest.now) }
{
    let opcode = front.opcode();
    let flags = front.flags;
    let length = front.length;
    let number = rest[9];
    let a = old_operand_refused(front, rest, 0);
    let b = old_operand_refused(front, rest, 1);
    let c = old_operand_refused(front, rest, 2);
    let d = old_operand_refused(front, rest, 3);
    (stored::VECTOR_LEAST <= opcode)
        | (64 <= flags)
        | (length < 1)
        | (15 < length)
        | (4 < number)
        | a
        | b
        | c
        | d
}

// No kind is walked over here: the four rules of operands know no mask.
fn is_old(front: Front, rest: &[u8]) -> bool
    ensures { result ≡ (not (old_length_refused (fields_by front rest.now)) && not (old_field_refused (fields_by front rest.now))) }
{
    if rest.len() < 10 {
        return false;
    }
    if rest.len() != 10 + 5 * (frames::numbers::byte_at(rest, 9) as usize) {
        return false;
    }
    !old_field_refused(front, rest)
}

// ---- Both answers

impl<'a> Body<'a> {
    // A body that neither answer 2 nor answer 3 refuses, or the first of them that applies.
    pub fn checked(front: Front, rest: &'a [u8]) -> Result<Self, Reason>
        ensures ok { IfOk result (λ b. (b.front ≡ front) × (b.rest ≡ rest.entry) × (body_answer (fields_by front rest.now) ≡ 0)) }
        ensures err { IfErr result (λ why. number_of why ≡ body_answer (fields_by front rest.now)) }
    {
        if is_old(front, rest) {
            return Ok(Body { front, rest });
        }
        if length_refused(front, rest) {
            return Err(Reason::Length);
        }
        let body = Body { front, rest };
        if field_refused(&body) {
            return Err(Reason::Field);
        }
        Ok(body)
    }
}
