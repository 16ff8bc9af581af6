// What is asked of operand k by its kind, without the rest of it. Each is joined to its callers: a call would take the body through
// memory, and then it is stored for every record.
#![tactic(auto, using(crate::proofs::ByKind::by_kind_lemmas))]

ghost use Rattle.std.specs.Prelude.{◌≡◌, ◌&&◌, ◌≤◌, eqb, get_or};
ghost use Rattle.operands.specs.Kinds.{is_absent, is_register, is_register_r, is_register_m, is_memory};
ghost use Rattle.operands.specs.RegisterBytes.{bank};
ghost use Rattle.operands.specs.Parts.{register_of, immediate_kind, immediate_of, mask_of, is_mask_register, bank_widths, immediate_widths, width_of};
ghost use Rattle.bodies.specs.Code.{fields_by, Whole};
ghost use Rattle.bodies.specs.Decoding.{operand_at};

use crate::{Body, numbers, stored};
use operands::kinds::{ABSOLUTE_16, I8, I16, REGISTER_M, REGISTER_R, U8, U16, U32};

impl Body<'_> {
    #[inline(always)]
    pub fn is_absent_at(&self, k: u8) -> bool
        ensures { result ≡ is_absent (operand_at (fields_by self.now.front self.now.rest.now) k) }
    {
        self.count() <= k
    }

    #[inline(always)]
    pub fn is_memory_at(&self, k: u8) -> bool
        ensures { result ≡ is_memory (operand_at (fields_by self.now.front self.now.rest.now) k) }
    {
        matches!(self.place_of(k), Some(at) if ABSOLUTE_16 <= self.rest[at])
    }

    #[inline(always)]
    pub fn is_register_at(&self, k: u8) -> bool
        ensures { result ≡ is_register (operand_at (fields_by self.now.front self.now.rest.now) k) }
    {
        matches!(self.place_of(k), Some(at) if self.rest[at] <= REGISTER_M)
    }

    // A register in the R place, kind 1.
    #[inline(always)]
    pub fn is_register_r_at(&self, k: u8) -> bool
        ensures { result ≡ is_register_r (operand_at (fields_by self.now.front self.now.rest.now) k) }
    {
        matches!(self.place_of(k), Some(at) if self.rest[at] == REGISTER_R)
    }

    // A register in the M place, kind 2.
    #[inline(always)]
    pub fn is_register_m_at(&self, k: u8) -> bool
        ensures { result ≡ is_register_m (operand_at (fields_by self.now.front self.now.rest.now) k) }
    {
        matches!(self.place_of(k), Some(at) if self.rest[at] == REGISTER_M)
    }

    // The register byte of kinds 1 and 2, and 0 of any other operand.
    #[inline(always)]
    pub fn register_at(&self, k: u8) -> u8
        ensures { result ≡ register_of (operand_at (fields_by self.now.front self.now.rest.now) k) }
    {
        match self.place_of(k) {
            Some(at) if self.rest[at] <= REGISTER_M => self.rest[at + 2],
            _ => 0,
        }
    }

    // The kind of an immediate, and 0 of any other operand.
    #[inline(always)]
    pub fn immediate_kind_at(&self, k: u8) -> u8
        ensures { result ≡ immediate_kind (operand_at (fields_by self.now.front self.now.rest.now) k) }
    {
        let Some(at) = self.place_of(k) else {
            return 0;
        };
        match self.rest[at] {
            kind @ I8..=U32 => kind,
            _ => 0,
        }
    }

    // The value of an immediate, and 0 of any other operand.
    #[inline(always)]
    pub fn immediate_at(&self, k: u8) -> u32
        ensures { result ≡ immediate_of (operand_at (fields_by self.now.front self.now.rest.now) k) }
    {
        let Some(at) = self.place_of(k) else {
            return 0;
        };
        match self.rest[at] {
            kind @ I8..=U32 => numbers::immediate_of(kind, self.imm()),
            _ => 0,
        }
    }

    // Memory without a mask.
    #[inline(always)]
    pub fn is_plain_memory_at(&self, k: u8) -> bool
        ensures { result ≡ (is_memory (operand_at (fields_by self.now.front self.now.rest.now) k) && eqb (mask_of (operand_at (fields_by self.now.front self.now.rest.now) k)) 0) }
    {
        matches!(self.place_of(k), Some(at) if (ABSOLUTE_16 <= self.rest[at]) & (self.mask_at(k, at) == 0))
    }

    // A register of bank 9.
    #[inline(always)]
    pub fn is_mask_register_at(&self, k: u8) -> bool
        ensures { result ≡ is_mask_register (operand_at (fields_by self.now.front self.now.rest.now) k) }
    {
        matches!(self.place_of(k), Some(at) if (self.rest[at] <= REGISTER_M) & (self.rest[at + 2] / 8 == 9))
    }

    // The width in bytes of a register or an immediate, and 0 of any other operand.
    #[inline(always)]
    pub fn width_at(&self, k: u8) -> u8
        ensures { result ≡ width_of (operand_at (fields_by self.now.front self.now.rest.now) k) }
    {
        let Some(at) = self.place_of(k) else {
            return 0;
        };
        match self.rest[at] {
            ..=REGISTER_M => bank_width(self.rest[at + 2]),
            kind @ I8..=U32 => immediate_width(kind),
            _ => 0,
        }
    }
}

// The width of a register's bank.
fn bank_width(reg: u8) -> u8
    ensures { result ≡ get_or bank_widths (bank reg) 0 }
{
    match reg / 8 {
        0 => 4,
        1 | 3 => 2,
        2 => 1,
        4 => 10,
        5 | 9 => 8,
        6 => 16,
        7 => 32,
        8 => 64,
        _ => 0,
    }
}

// The width of an immediate's kind.
fn immediate_width(kind: u8) -> u8
    requires le_kind { 3 ≤ kind }
    requires kind_bound { kind ≤ 8 }
    ensures { result ≡ get_or immediate_widths kind 0 }
{
    match kind {
        I8 | U8 => 1,
        I16 | U16 => 2,
        _ => 4,
    }
}
