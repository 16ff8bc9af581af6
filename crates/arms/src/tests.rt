// What arms test of a body: the registers among its operands, by their bytes, and whether it takes the general path.
ghost use Rattle.std.specs.Prelude.{◌≡◌};
ghost use Rattle.operands.specs.Parts.{is_vector, is_bank0};
ghost use Rattle.bodies.specs.Code.{fields_by};
ghost use Rattle.bodies.specs.Decoding.{operand_at, instruction_of};
ghost use Rattle.arms.specs.Tests.{lsl_source, has_vector};
ghost use Rattle.arms.specs.Size.{general_path};

use bodies::Body;
use names::Arm;
use operands::kinds::{I8, I32};

// A register of the banks 5 to 7. The x87 bank, 4, does not count; and what is no register has the byte 0.
fn is_vector_at(body: &Body, k: u8) -> bool
    ensures { result ≡ is_vector (operand_at (fields_by body.now.front body.now.rest.now) k) }
{
    matches!(body.register_at(k) / 8, 5..=7)
}

#[tactic(auto, unfolding(bodies::specs::Decoding::instruction_of))]
pub fn has_vector(body: &Body) -> bool
    ensures { result ≡ has_vector (instruction_of (fields_by body.now.front body.now.rest.now)) }
{
    is_vector_at(body, 0) || is_vector_at(body, 1) || is_vector_at(body, 2) || is_vector_at(body, 3)
}

pub fn is_bank_0_at(body: &Body, k: u8) -> bool
    ensures { result ≡ is_bank0 (operand_at (fields_by body.now.front body.now.rest.now) k) }
{
    body.is_register_at(k) && body.register_at(k) / 8 == 0
}

// The source of LSL takes the destination's bank.
pub fn lsl_source(body: &Body) -> u8
    ensures { result ≡ lsl_source (operand_at (fields_by body.now.front body.now.rest.now) 0) (operand_at (fields_by body.now.front body.now.rest.now) 1) }
{
    8 * (body.register_at(0) / 8) + body.register_at(1) % 8
}

// Whether the record takes the general path: its arm is one of that path's own, or leaves the record to it.
#[tactic(auto, unfolding(bodies::specs::Decoding::instruction_of))]
pub fn is_general(arm: Arm, body: &Body) -> bool
    ensures { result ≡ general_path arm (instruction_of (fields_by body.now.front body.now.rest.now)) }
{
    match arm {
        Arm::General
        | Arm::Qword
        | Arm::Mmword
        | Arm::Jmpf
        | Arm::Callf
        | Arm::Lds
        | Arm::Movs
        | Arm::Cmps
        | Arm::Singles
        | Arm::Doubles
        | Arm::Incssp
        | Arm::Wrss => true,
        Arm::Branch | Arm::Call => !matches!(body.immediate_kind_at(0), I8 | I32),
        Arm::Xbegin => body.immediate_kind_at(0) != I32,
        Arm::Lsl => !(body.is_register_at(0) && body.is_register_at(1)),
        Arm::Nop => body.is_absent_at(1),
        Arm::Aam => body.imm() != 10,
        _ => false,
    }
}
