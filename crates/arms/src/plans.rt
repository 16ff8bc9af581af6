// The plan of each arm: the general path stands in the code once, then the other arms in document 000's order.
ghost use Rattle.std.specs.Prelude.{◌≡◌, false, ◌&&◌, eqb};
ghost use Rattle.bodies.specs.Body.{size_of};
ghost use Rattle.bodies.specs.Code.{fields_by};
ghost use Rattle.bodies.specs.Refusals.{field_refused};
ghost use Rattle.bodies.specs.Decoding.{instruction_of};
ghost use Rattle.arms.specs.Size.{general_path};
ghost use Rattle.arms.specs.Code.{mmword_for};
ghost use Rattle.arms.specs.Plans.{plain as plain_place, st as st_place, labelled as labelled_place, scattered as scattered_place, spread as spread_places, three as three_places, two as two_places, one as one_place, none as no_place, places_of, plan_of};
ghost use Rattle.arms.specs.Code.{general_by};

use crate::decorations::decorated;
use crate::labels::{general_label, lss_label, size_label, tbyte_label};
use crate::tests::{has_vector, is_general, lsl_source};
use bodies::Body;
use names::Arm;
use operands::{Label, Tail};
use places::{Mask, Place, Plan, Segment};

// The registers that arms show by themselves.
const EAX: u8 = 0;

const ECX: u8 = 1;

const EDX: u8 = 2;

const XMM0: u8 = 48;

// An operand with this label where it is memory, and its segment as the arm shows it.
fn labelled(label: Label, segment: Segment, k: u8) -> Place
    ensures { result ≡ labelled_place label segment k }
{
    Place::Operand {
        k,
        label,
        segment,
        short: false,
        mask: Mask::Itself,
        broadcast: None,
    }
}

fn plain(k: u8) -> Place
    ensures { result ≡ plain_place k }
{
    labelled(Label::None, Segment::Hidden, k)
}

fn st(k: u8) -> Place
    ensures { result ≡ st_place k }
{
    Place::Operand {
        k,
        label: Label::None,
        segment: Segment::Hidden,
        short: true,
        mask: Mask::Itself,
        broadcast: None,
    }
}

// Operand 0 of VPSCATTER, with operand 1 as its mask.
fn scattered(label: Label) -> Place
    ensures { result ≡ scattered_place label }
{
    Place::Operand {
        k: 0,
        label,
        segment: Segment::Hidden,
        short: false,
        mask: Mask::Second,
        broadcast: None,
    }
}

fn three(a: Place, b: Place, c: Place) -> Plan
    ensures { result ≡ three_places a b c }
{
    Plan {
        a,
        b,
        c,
        d: Place::Nothing,
        tail: Tail::None,
    }
}

fn two(a: Place, b: Place) -> Plan
    ensures { result ≡ two_places a b }
{
    three(a, b, Place::Nothing)
}

fn one(a: Place) -> Plan
    ensures { result ≡ one_place a }
{
    two(a, Place::Nothing)
}

fn none() -> Plan
    ensures { result ≡ no_place }
{
    one(Place::Nothing)
}

// Every operand, the first with one label and those after it with another.
#[tactic(auto, unfolding(crate::specs::Plans::spread))]
fn spread(first: Label, later: Label, segment: Segment) -> Plan
    ensures { result ≡ spread_places first later segment }
{
    Plan {
        a: labelled(first, Segment::Shown, 0),
        b: labelled(later, segment, 1),
        c: labelled(later, segment, 2),
        d: labelled(later, segment, 3),
        tail: Tail::None,
    }
}

// Whether 8 is `mmword`. The registers are looked at for that size alone.
fn is_mmword(arm: Arm, body: &Body, size: u8) -> bool
    ensures { result ≡ (eqb size 8 && mmword_for arm (instruction_of (fields_by body.now.front body.now.rest.now))) }
{
    if size == 8 {
        match arm {
            Arm::Qword => false,
            Arm::Mmword => true,
            _ => has_vector(body),
        }
    } else {
        false
    }
}

// The general path. Most arms have one label for all operands.
#[tactic(auto, unfolding(crate::specs::Code::general_by))]
fn general(arm: Arm, mmword: bool, size: u8) -> Plan
    ensures { result ≡ general_by arm mmword size }
{
    match arm {
        Arm::Jmpf | Arm::Callf => spread(
            general_label(mmword, true, size),
            general_label(mmword, false, size),
            Segment::Shown,
        ),
        Arm::Lds => spread(
            general_label(mmword, false, size),
            general_label(mmword, true, size),
            Segment::Shown,
        ),
        Arm::Movs => {
            let label = general_label(mmword, false, size);
            spread(label, label, Segment::UnlessDs)
        }
        _ => {
            let label = general_label(mmword, false, size);
            spread(label, label, Segment::Shown)
        }
    }
}

#[tactic(auto, unfolding(crate::specs::Plans::places_of, bodies::specs::Decoding::instruction_of))]
fn fadd(body: &Body) -> Plan
    ensures { result ≡ places_of Arm.Fadd (instruction_of (fields_by body.now.front body.now.rest.now)) }
{
    if body.is_memory_at(1) {
        one(labelled(size_label(body.size()), Segment::Shown, 1))
    } else if body.is_register_r_at(0) {
        two(st(0), plain(1))
    } else {
        two(plain(0), st(1))
    }
}

// An arm that does not leave its record to the general path; those that are not named show their name alone.
#[tactic(auto, unfolding(crate::specs::Plans::places_of, bodies::specs::Decoding::instruction_of))]
fn own(arm: Arm, body: &Body, size: u8) -> Plan
    requires size_value { size ≡ size_of (fields_by body.now.front body.now.rest.now) }
    requires rest_value { general_path arm (instruction_of (fields_by body.now.front body.now.rest.now)) ≡ false }
    ensures { result ≡ places_of arm (instruction_of (fields_by body.now.front body.now.rest.now)) }
{
    match arm {
        Arm::Branch | Arm::Call | Arm::Xbegin => one(Place::Branch),
        Arm::Hreset => two(plain(0), Place::Register(EAX)),
        Arm::Lsl => two(plain(0), Place::Register(lsl_source(body))),
        Arm::Prefetch => one(plain(0)),
        Arm::Sgdt => one(labelled(Label::Fword, Segment::Hidden, 0)),
        Arm::Lss => two(plain(0), labelled(lss_label(size), Segment::Hidden, 1)),
        Arm::ScatterDword => two(scattered(Label::Dword), plain(2)),
        Arm::ScatterQword => two(scattered(Label::Qword), plain(2)),
        Arm::Monitor | Arm::Pvalidate => three(
            Place::Register(EAX),
            Place::Register(ECX),
            Place::Register(EDX),
        ),
        Arm::Mwait => two(Place::Register(EAX), Place::Register(ECX)),
        Arm::Invlpgb => two(plain(0), plain(2)),
        Arm::Scas => one(labelled(size_label(size), Segment::Shown, 0)),
        Arm::Lods => one(labelled(size_label(size), Segment::Hidden, 1)),
        Arm::Psmash => one(Place::Register(EAX)),
        Arm::Pblendvb => three(
            plain(0),
            labelled(size_label(size), Segment::Shown, 1),
            Place::Register(XMM0),
        ),
        Arm::Lea => two(plain(0), plain(1)),
        Arm::Fcom => one(labelled(size_label(size), Segment::Shown, 1)),
        Arm::Fadd => fadd(body),
        Arm::Fbld => one(Place::Operand {
            k: 1,
            label: tbyte_label(size),
            segment: Segment::Shown,
            short: true,
            mask: Mask::Itself,
            broadcast: None,
        }),
        Arm::Fbstp => one(labelled(tbyte_label(size), Segment::Shown, 0)),
        _ => none(),
    }
}

// A record that is not extended has no flag bit 6 and no tail, so its plan is that of its places.
#[tactic(auto, unfolding(crate::specs::Plans::plan_of, bodies::specs::Decoding::instruction_of))]
pub fn plan_of(arm: Arm, body: &Body) -> Plan
    requires rest_value { field_refused (fields_by body.now.front body.now.rest.now) ≡ false }
    ensures { result ≡ plan_of arm (instruction_of (fields_by body.now.front body.now.rest.now)) }
{
    let size = body.size();
    if is_general(arm, body) {
        let plan = general(arm, is_mmword(arm, body, size), size);
        if body.is_extended() {
            decorated(arm, body, plan)
        } else {
            plan
        }
    } else {
        own(arm, body, size)
    }
}
