// Answer 5: which records are refused for want of a label, read off the plan.
ghost use Rattle.std.specs.Prelude.{◌≡◌, ◌≤◌};
ghost use Rattle.bodies.specs.Body.{count_of};
ghost use Rattle.bodies.specs.Code.{fields_by};
ghost use Rattle.bodies.specs.Decoding.{instruction_of};
ghost use Rattle.arms.specs.Missing.{place_misses, place_lacks, plan_lacks};

use bodies::Body;
use operands::Label;
use places::{Place, Plan};

// A place calls for a label that there is not.
fn misses(place: Place) -> bool
    ensures { result ≡ place_misses place }
{
    matches!(
        place,
        Place::Operand {
            label: Label::Missing,
            ..
        }
    )
}

// A label is called for and there is none. The operand is looked at only where its label is missing.
#[tactic(auto, using(bodies::proofs::Counted::operand_in_lem))]
fn place_lacks(body: &Body, place: Place) -> bool
    requires rest_bound { count_of (fields_by body.now.front body.now.rest.now) ≤ 4 }
    ensures { result ≡ place_lacks (instruction_of (fields_by body.now.front body.now.rest.now)) place }
{
    match place {
        Place::Operand {
            k,
            label: Label::Missing,
            ..
        } => body.is_memory_at(k),
        _ => false,
    }
}

// No place of most plans misses a label, so that is asked of all of them at once and first.
#[tactic(auto, using(crate::proofs::Lacking::misses_none), unfolding(crate::specs::Missing::plan_lacks))]
pub fn plan_lacks(body: &Body, plan: Plan) -> bool
    requires rest_bound { count_of (fields_by body.now.front body.now.rest.now) ≤ 4 }
    ensures { result ≡ plan_lacks (instruction_of (fields_by body.now.front body.now.rest.now)) plan }
{
    if !(misses(plan.a) | misses(plan.b) | misses(plan.c) | misses(plan.d)) {
        return false;
    }
    place_lacks(body, plan.a)
        || place_lacks(body, plan.b)
        || place_lacks(body, plan.c)
        || place_lacks(body, plan.d)
}
