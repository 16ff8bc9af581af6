// Answer 4: which records are refused for the shape of their operands.
ghost use Rattle.std.specs.Prelude.{◌≡◌};
ghost use Rattle.bodies.specs.Code.{fields_by};
ghost use Rattle.bodies.specs.Decoding.{operand_at, instruction_of};
ghost use Rattle.arms.specs.Shape.{lsl_refused, fadd_refused, fbld_refused, scatter_refused, shape_refused};

use crate::tests::{is_bank_0_at, lsl_source};
use bodies::Body;
use names::Arm;

fn lsl_refused(body: &Body) -> bool
    ensures { result ≡ lsl_refused (operand_at (fields_by body.now.front body.now.rest.now) 0) (operand_at (fields_by body.now.front body.now.rest.now) 1) }
{
    let source = lsl_source(body);
    !body.is_register_at(0)
        || (body.is_register_at(1) && !(source < 80 && source != 30 && source != 31))
}

// Joined to its caller, as the functions of `bodies::kinds` are.
#[inline(always)]
fn fadd_refused(body: &Body) -> bool
    ensures { result ≡ fadd_refused (operand_at (fields_by body.now.front body.now.rest.now) 0) (operand_at (fields_by body.now.front body.now.rest.now) 1) }
{
    !body.is_memory_at(1) && !body.is_register_r_at(0) && !body.is_register_r_at(1)
}

fn fbld_refused(body: &Body) -> bool
    ensures { result ≡ fbld_refused (operand_at (fields_by body.now.front body.now.rest.now) 1) }
{
    !body.is_memory_at(1) && !body.is_register_m_at(1)
}

fn scatter_refused(body: &Body) -> bool
    ensures { result ≡ scatter_refused (operand_at (fields_by body.now.front body.now.rest.now) 0) (operand_at (fields_by body.now.front body.now.rest.now) 1) (operand_at (fields_by body.now.front body.now.rest.now) 2) }
{
    !body.is_plain_memory_at(0) || !body.is_mask_register_at(1) || body.is_absent_at(2)
}

// The arms that answer alike stand together; every arm that is not named refuses nothing.
#[tactic(auto, unfolding(crate::specs::Shape::shape_refused, bodies::specs::Decoding::instruction_of))]
pub fn shape_refused(arm: Arm, body: &Body) -> bool
    ensures { result ≡ shape_refused arm (instruction_of (fields_by body.now.front body.now.rest.now)) }
{
    match arm {
        Arm::Hreset | Arm::Prefetch | Arm::Fbstp => body.is_absent_at(0),
        Arm::Lsl => lsl_refused(body),
        Arm::Sgdt | Arm::Scas => !body.is_memory_at(0),
        Arm::Lss => body.is_absent_at(0) || !body.is_memory_at(1),
        Arm::Invlpgb => body.is_absent_at(0) || body.is_absent_at(2),
        Arm::Lods => !body.is_memory_at(1),
        Arm::Incssp => !is_bank_0_at(body, 0),
        Arm::Wrss => !is_bank_0_at(body, 1),
        Arm::Pblendvb | Arm::Lea => body.is_absent_at(0) || body.is_absent_at(1),
        Arm::Fcom => body.is_absent_at(1),
        Arm::Fadd => body.is_absent_at(0) || body.is_absent_at(1) || fadd_refused(body),
        Arm::Fbld => fbld_refused(body),
        Arm::ScatterDword | Arm::ScatterQword => scatter_refused(body),
        _ => false,
    }
}
