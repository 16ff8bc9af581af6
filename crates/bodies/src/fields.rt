// The fields of a body whose length is right, from its front and its rest.
ghost use Rattle.std.specs.Prelude.{◌≡◌};
ghost use Rattle.bodies.specs.Code.{Whole};
ghost use Rattle.bodies.specs.Body.{size_of, imm_of, disp_of, count_of, is_extended, bits_of, tail_of};
ghost use Rattle.bodies.specs.Code.{fields_by, opcode_in};

use crate::{Body, Front};

impl Front {
    pub fn opcode(&self) -> u16
        ensures { result ≡ opcode_in self.now }
    {
        (self.high as u16) * 256 + self.low as u16
    }
}

impl Body<'_> {
    pub fn size(&self) -> u8
        ensures { result ≡ size_of (fields_by self.now.front self.now.rest.now) }
    {
        self.rest[0]
    }

    pub fn imm(&self) -> u32
        ensures { result ≡ imm_of (fields_by self.now.front self.now.rest.now) }
    {
        frames::numbers::dword_at(self.rest, 1)
    }

    pub fn disp(&self) -> u32
        ensures { result ≡ disp_of (fields_by self.now.front self.now.rest.now) }
    {
        frames::numbers::dword_at(self.rest, 5)
    }

    pub fn count(&self) -> u8
        ensures { result ≡ count_of (fields_by self.now.front self.now.rest.now) }
    {
        self.rest[9]
    }

    // A record that is extended ends in two bytes more, so its length tells it.
    #[tactic(auto, using(crate::proofs::Lengths::extended_by_length, crate::proofs::InRest::eqb_fields))]
    pub fn is_extended(&self) -> bool
        ensures { result ≡ is_extended (fields_by self.now.front self.now.rest.now) }
    {
        self.rest.len() != 10 + 5 * (frames::numbers::byte_at(self.rest, 9) as usize)
    }

    #[tactic(auto, using(crate::proofs::Lengths::bits_extended))]
    pub fn bits(&self) -> u8
        ensures { result ≡ bits_of (fields_by self.now.front self.now.rest.now) }
    {
        if self.is_extended() {
            self.rest[self.rest.len() - 2]
        } else {
            0
        }
    }

    #[tactic(auto, using(crate::proofs::Lengths::tail_extended))]
    pub fn tail(&self) -> u8
        ensures { result ≡ tail_of (fields_by self.now.front self.now.rest.now) }
    {
        if self.is_extended() {
            self.rest[self.rest.len() - 1]
        } else {
            0
        }
    }
}
