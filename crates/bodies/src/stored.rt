// Where the operands of a body stand: after one another, with five bytes each, or six where the kind has a mask. Places here are those of
// the rest: the fields have four bytes before it.
ghost use Rattle.std.specs.Prelude.{◌≡◌, ◌+◌, ◌^◌, ◌≤◌, ◌<◌, length, IfSome, IsNone};
ghost use Rattle.operands.specs.Kinds.{is_masked, form};
ghost use Rattle.bodies.specs.Code.{fields_by, in_fields, Whole, StandsAt};
ghost use Rattle.bodies.specs.Body.{count_of, place_after, place_of, mask_at, is_vector_opcode};

use crate::Body;
use operands::kinds::{MASKED_LEAST, MASKED_MOST};

// Document 02's opcodes: the four VPSCATTER, and eighteen more.
pub const VECTOR_LEAST: u16 = 154;

pub const SCATTER_MOST: u16 = 157;

pub const VECTOR_MOST: u16 = 175;

pub fn is_masked(kind: u8) -> bool
    ensures { result ≡ is_masked kind }
{
    (MASKED_LEAST <= kind) & (kind <= MASKED_MOST)
}

// Kinds 17 to 22 are 11 to 16 with a mask.
pub fn form_of(kind: u8) -> u8
    ensures { result ≡ form kind }
{
    if is_masked(kind) { kind - 6 } else { kind }
}

pub fn is_vector_opcode(opcode: u16) -> bool
    ensures { result ≡ is_vector_opcode opcode }
{
    (VECTOR_LEAST <= opcode) & (opcode <= VECTOR_MOST)
}

// The place after the operand that begins at a place.
pub fn place_after(rest: &[u8], at: usize) -> usize
    requires at_in_bounds { at < length rest.now }
    requires at_bound { at < 2 ^ 16 }
    ensures { result ≡ place_after rest.now at }
{
    if is_masked(rest[at]) { at + 6 } else { at + 5 }
}

impl Body<'_> {
    // Operand by operand.
    fn walk_to(&self, k: u8) -> usize
        requires k_bound { k < count_of (fields_by self.now.front self.now.rest.now) }
        ensures { in_fields result ≡ place_of (fields_by self.now.front self.now.rest.now) k }
    {
        let mut at = 10;
        for _ in 0..k {
            at = place_after(self.rest, at);
        }
        at
    }

    // A mask is one byte more and makes the record extended, which is two more: where there are two at most, no operand has a mask, and
    // there is nothing to walk.
    pub fn place_at(&self, k: u8) -> usize
        requires k_bound { k < count_of (fields_by self.now.front self.now.rest.now) }
        ensures result_value { in_fields result ≡ place_of (fields_by self.now.front self.now.rest.now) k }
        ensures result_in_bounds { result + 5 ≤ length self.now.rest.now }
    {
        if self.rest.len() <= 12 + 5 * (frames::numbers::byte_at(self.rest, 9) as usize) {
            10 + 5 * (k as usize)
        } else {
            self.walk_to(k)
        }
    }

    // Where operand k stands, if there is one. Joined to its callers, as the functions of `kinds` are.
    #[inline(always)]
    pub fn place_of(&self, k: u8) -> Option<usize>
        ensures some { IfSome result (λ at. StandsAt (fields_by self.now.front self.now.rest.now) k at) }
        ensures none { IsNone result → count_of (fields_by self.now.front self.now.rest.now) ≤ k }
    {
        if k < self.count() {
            Some(self.place_at(k))
        } else {
            None
        }
    }

    // The register byte of operand k's mask, 0 of a kind that has none. The operand stands at the place.
    pub fn mask_at(&self, k: u8, at: usize) -> u8
        requires k_bound { k < count_of (fields_by self.now.front self.now.rest.now) }
        requires at_value { in_fields at ≡ place_of (fields_by self.now.front self.now.rest.now) k }
        ensures { result ≡ mask_at (fields_by self.now.front self.now.rest.now) k }
    {
        if is_masked(self.rest[at]) {
            self.rest[at + 5]
        } else {
            0
        }
    }
}
