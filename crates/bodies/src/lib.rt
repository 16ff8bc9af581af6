// A record body of any bytes and any length: its fields and operands, and answers 2 and 3. Only this crate knows at which byte a
// field stands. The fields are handed about in two parts, the front and the rest, as version 2 has its start address between them.
#![tactic(auto)]

ghost use Rattle.bodies.specs.Code.{fields_by, Whole};

pub mod fields;
pub mod kinds;
pub mod layout;
pub mod numbers;
pub mod parts;
pub mod rules;
pub mod stored;

// The first four bytes of a body, which are the opcode, the flags and the instruction length, and the start address: 0 in version 1.
#[derive(Clone, Copy)]
pub struct Front {
    pub high: u8,
    pub low: u8,
    pub flags: u8,
    pub length: u8,
    pub start: u32,
}

// A body whose length is right, by its front and its rest.
#[derive(Clone, Copy)]
pub struct Body<'a> {
    pub front: Front,
    pub rest: &'a [u8],
    ghost whole: { Whole (fields_by front rest.now) },
}
