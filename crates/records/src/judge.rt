// What a record comes to before there is a buffer.
ghost use Rattle.std.specs.Prelude.{◌≡◌, IfOk, IfErr};
ghost use Rattle.answers.specs.Reasons.{number_of};
ghost use Rattle.bodies.specs.Code.{fields_by};
ghost use Rattle.records.specs.Records.{asked_refused, in_version, mode_of};
ghost use Rattle.records.specs.Judged.{FieldsAnswer, AcceptsFields};

use crate::{Accepted, Asked};
use answers::Reason;
use arms::decorations::broadcast_refused;
use arms::plans::plan_of;
use arms::shapes::shape_refused;
use arms::sizes::plan_lacks;
use bodies::{Body, Front};
use branches::Mode;
use names::opcodes::Arms;

// Mode 2 shows an address, which version 1 does not have.
pub fn asked_refused(asked: Asked) -> bool
    ensures { result ≡ asked_refused asked }
{
    (2 < asked.mode)
        | !frames::known_version(asked.version)
        | ((asked.mode == 2) & (asked.version == 1))
}

// The same, asked of a record of this version.
pub fn in_version(version: u32, asked: Asked) -> Asked
    ensures { result ≡ in_version version asked }
{
    Asked { version, ..asked }
}

// The refusals of a record's fields, in the order of document 01's table, and document 02's after them. Answers 2 and 3 are asked at once,
// so that a record of document 01's own is looked through once; those of size and broadcast are read off the plan.
pub fn judge_fields<'a>(arms: &Arms, front: Front, rest: &'a [u8]) -> Result<Accepted<'a>, Reason>
    ensures ok { IfOk result (λ r. AcceptsFields (fields_by front rest.now) r.arm r.plan × (r.body.front ≡ front) × (r.body.rest ≡ rest.entry)) }
    ensures err { IfErr result (λ why. FieldsAnswer (fields_by front rest.now) (number_of why)) }
{
    let body = Body::checked(front, rest)?;
    let arm = arms.of(body.front.opcode());
    if shape_refused(arm, &body) {
        return Err(Reason::Shape);
    }
    let plan = plan_of(arm, &body);
    if plan_lacks(&body, plan) {
        return Err(Reason::Size);
    }
    if broadcast_refused(arm, &body, plan) {
        return Err(Reason::Broadcast);
    }
    Ok(Accepted { arm, plan, body })
}

// The mode of a number that is not refused.
pub fn mode_of(asked: Asked) -> Mode
    ensures { result ≡ mode_of asked }
{
    match asked.mode {
        2 => Mode::Target,
        1 => Mode::Straight,
        _ => Mode::Crate,
    }
}
