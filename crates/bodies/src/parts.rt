// The parts of an accepted body.
ghost use Rattle.std.specs.Prelude.{◌≡◌};
ghost use Rattle.bodies.specs.Code.{fields_by, Whole};
ghost use Rattle.bodies.specs.Decoding.{address_of, operand_of, operand_at};

use crate::{Body, numbers, stored};
use operands::kinds::{ABSOLUTE_16, ABSOLUTE_32, BASE_DISP, INDEX_DISP, REGISTER_M, U32};
use operands::{Address, Operand};

#[tactic(auto, unfolding(crate::specs::Decoding::address_of))]
fn address(kind: u8, first: u8, second: u8, scale: u8, disp: u32) -> Address
    ensures { result ≡ address_of kind first second scale disp }
{
    let displaced = numbers::is_displaced(kind);
    let moved = numbers::displacement_of(kind, disp);
    if kind <= BASE_DISP {
        Address {
            disp: moved,
            base: first,
            index: 0,
            scale: 0,
            based: true,
            indexed: false,
            displaced,
        }
    } else if kind <= INDEX_DISP {
        Address {
            disp: moved,
            base: 0,
            index: first,
            scale,
            based: false,
            indexed: true,
            displaced,
        }
    } else {
        Address {
            disp: moved,
            base: first,
            index: second,
            scale,
            based: true,
            indexed: true,
            displaced,
        }
    }
}

#[tactic(auto, unfolding(crate::specs::Decoding::operand_of))]
fn operand(
    imm: u32,
    disp: u32,
    kind: u8,
    segment: u8,
    first: u8,
    second: u8,
    scale: u8,
    mask: u8,
) -> Operand
    ensures { result ≡ operand_of imm disp kind segment first second scale mask }
{
    if kind <= REGISTER_M {
        Operand::Register {
            place: kind,
            reg: first,
        }
    } else if kind <= U32 {
        Operand::Imm {
            kind,
            value: numbers::immediate_of(kind, imm),
        }
    } else if kind <= ABSOLUTE_16 {
        Operand::Absolute16 {
            segment,
            address: (disp % 0x1_0000) as u16,
        }
    } else if kind <= ABSOLUTE_32 {
        Operand::Absolute32 {
            segment,
            address: disp,
        }
    } else {
        Operand::Memory {
            segment,
            address: address(stored::form_of(kind), first, second, scale, disp),
            mask,
        }
    }
}

impl Body<'_> {
    // Operand k of a record that may have masks.
    fn extended_operand_at(&self, k: u8) -> Operand
        ensures { result ≡ operand_at (fields_by self.now.front self.now.rest.now) k }
    {
        let Some(at) = self.place_of(k) else {
            return Operand::Absent;
        };
        operand(
            self.imm(),
            self.disp(),
            self.rest[at],
            self.rest[at + 1],
            self.rest[at + 2],
            self.rest[at + 3],
            self.rest[at + 4],
            self.mask_at(k, at),
        )
    }

    // Operand k. A record that is not extended has no masks before it, so it stands where document 01 has it.
    pub fn operand_at(&self, k: u8) -> Operand
        ensures { result ≡ operand_at (fields_by self.now.front self.now.rest.now) k }
    {
        if k < self.count() {
            if self.is_extended() {
                return self.extended_operand_at(k);
            }
            let at = 10 + 5 * (k as usize);
            operand(
                self.imm(),
                self.disp(),
                self.rest[at],
                self.rest[at + 1],
                self.rest[at + 2],
                self.rest[at + 3],
                self.rest[at + 4],
                0,
            )
        } else {
            Operand::Absent
        }
    }
}
