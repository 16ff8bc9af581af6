// What document 02 adds to the general path of an extended record: `{1toN}` and the tail.
ghost use Rattle.std.specs.Prelude.{◌≡◌, ◌≤◌};
ghost use Rattle.bodies.specs.Body.{count_of};
ghost use Rattle.bodies.specs.Code.{fields_by};
ghost use Rattle.bodies.specs.Decoding.{operand_at, instruction_of};
ghost use Rattle.arms.specs.Decorations.{is_broadcast, by_bits, broadcast_count, broadcast_after, rounding_of, tail_of, broadcast_refused};
ghost use Rattle.arms.specs.Plans.{broadcast_as, decorated as decorated_plan, plan_of};
ghost use Rattle.arms.specs.Missing.{place_over16, plan_over16};

use bodies::Body;
use names::Arm;
use operands::Tail;
use places::{Place, Plan};

// One number with l, which is bit 0, else another with lp, which is bit 1, else a third.
fn by_bits(l: u8, lp: u8, neither: u8, bits: u8) -> u8
    ensures { result ≡ by_bits l lp neither bits }
{
    if bits % 2 == 1 {
        l
    } else if bits / 2 % 2 == 1 {
        lp
    } else {
        neither
    }
}

// N of the operand after operand k. What takes a body here is joined to its caller, as the functions of `bodies::kinds` are.
#[tactic(auto, unfolding(crate::specs::Decorations::broadcast_count, bodies::specs::Decoding::instruction_of))]
#[inline(always)]
fn broadcast_count(arm: Arm, body: &Body, k: u8) -> u8
    ensures { result ≡ broadcast_count arm (instruction_of (fields_by body.now.front body.now.rest.now)) (operand_at (fields_by body.now.front body.now.rest.now) k) }
{
    match arm {
        Arm::Singles => by_bits(8, 16, 4, body.bits()),
        Arm::Doubles => by_bits(4, 8, 2, body.bits()),
        _ => {
            let size = body.size();
            if size == 0 {
                0
            } else {
                body.width_at(k) / size
            }
        }
    }
}

#[tactic(auto, unfolding(bodies::specs::Decoding::instruction_of))]
fn is_broadcast(body: &Body) -> bool
    ensures { result ≡ is_broadcast (instruction_of (fields_by body.now.front body.now.rest.now)) }
{
    body.front.flags / 64 % 2 == 1
}

// The broadcast of the operand after operand k.
#[inline(always)]
fn broadcast_after(arm: Arm, body: &Body, k: u8) -> Option<u8>
    ensures { result ≡ broadcast_after arm (instruction_of (fields_by body.now.front body.now.rest.now)) (operand_at (fields_by body.now.front body.now.rest.now) k) }
{
    if is_broadcast(body) {
        Some(broadcast_count(arm, body, k))
    } else {
        None
    }
}

fn rounding_of(bits: u8) -> Tail
    ensures { result ≡ rounding_of bits }
{
    match bits {
        0 => Tail::Nearest,
        1 => Tail::Down,
        2 => Tail::Up,
        _ => Tail::Zero,
    }
}

#[tactic(auto, unfolding(crate::specs::Decorations::tail_of, bodies::specs::Decoding::instruction_of))]
fn tail_of(body: &Body) -> Tail
    ensures { result ≡ tail_of (instruction_of (fields_by body.now.front body.now.rest.now)) }
{
    if body.is_absent_at(0) {
        return Tail::None;
    }
    match body.tail() {
        1 => Tail::Sae,
        2 => rounding_of(body.bits()),
        _ => Tail::None,
    }
}

// A place with this broadcast.
fn broadcast_as(broadcast: Option<u8>, place: Place) -> Place
    ensures { result ≡ broadcast_as broadcast place }
{
    match place {
        Place::Operand {
            k,
            label,
            segment,
            short,
            mask,
            ..
        } => Place::Operand {
            k,
            label,
            segment,
            short,
            mask,
            broadcast,
        },
        _ => place,
    }
}

// The plan of the general path with its broadcasts and its tail.
#[tactic(auto, unfolding(crate::specs::Plans::decorated, bodies::specs::Decoding::instruction_of))]
pub fn decorated(arm: Arm, body: &Body, plan: Plan) -> Plan
    ensures { result ≡ decorated_plan arm (instruction_of (fields_by body.now.front body.now.rest.now)) plan }
{
    Plan {
        b: broadcast_as(broadcast_after(arm, body, 0), plan.b),
        c: broadcast_as(broadcast_after(arm, body, 1), plan.c),
        d: broadcast_as(broadcast_after(arm, body, 2), plan.d),
        tail: tail_of(body),
        ..plan
    }
}

// `{1toN}` with N above 16. The operand is looked at only where N is.
#[tactic(auto, using(bodies::proofs::Counted::operand_in_lem))]
fn place_over_16(body: &Body, place: Place) -> bool
    requires rest_bound { count_of (fields_by body.now.front body.now.rest.now) ≤ 4 }
    ensures { result ≡ place_over16 (instruction_of (fields_by body.now.front body.now.rest.now)) place }
{
    match place {
        Place::Operand {
            k,
            broadcast: Some(n),
            ..
        } if 16 < n => body.is_memory_at(k),
        _ => false,
    }
}

// Some place prints a `{1toN}` with N above 16.
#[tactic(auto, unfolding(crate::specs::Missing::plan_over16))]
fn plan_over_16(body: &Body, plan: Plan) -> bool
    requires rest_bound { count_of (fields_by body.now.front body.now.rest.now) ≤ 4 }
    ensures { result ≡ plan_over16 (instruction_of (fields_by body.now.front body.now.rest.now)) plan }
{
    place_over_16(body, plan.a)
        || place_over_16(body, plan.b)
        || place_over_16(body, plan.c)
        || place_over_16(body, plan.d)
}

// Answer 7, read off the record's plan. Without flag bit 6 there is nothing to read.
#[tactic(auto, using(crate::proofs::Over16::plan_over, crate::proofs::Over16::no_broadcast))]
pub fn broadcast_refused(arm: Arm, body: &Body, plan: Plan) -> bool
    requires rest_bound { count_of (fields_by body.now.front body.now.rest.now) ≤ 4 }
    requires plan_value { plan ≡ plan_of arm (instruction_of (fields_by body.now.front body.now.rest.now)) }
    ensures { result ≡ broadcast_refused arm (instruction_of (fields_by body.now.front body.now.rest.now)) }
{
    is_broadcast(body) && plan_over_16(body, plan)
}
