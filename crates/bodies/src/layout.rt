// A body by its version: its front, and where its rest begins.
ghost use Rattle.std.specs.Prelude.{◌≡◌, true, ◌≤◌, length};
ghost use Rattle.frames.specs.Frames.{known_version};
ghost use Rattle.bodies.specs.Versions.{start_of};
ghost use Rattle.bodies.specs.Code.{rest_at, front_of};

use crate::Front;

// Version 2 has the start address after the instruction length. It is reckoned, for a choice of two numbers would become one at each
// byte that is read of the rest.
pub fn rest_at(version: u32) -> usize
    requires { known_version version ≡ true }
    ensures { result ≡ rest_at version }
{
    4 * (version as usize)
}

#[tactic(auto, unfolding(crate::specs::Versions::start_of))]
fn start_of(version: u32, body: &[u8]) -> u32
    requires { rest_at version ≤ length body.now }
    ensures { result ≡ start_of version body.now }
{
    if version == 2 {
        frames::numbers::dword_at(body, 4)
    } else {
        0
    }
}

pub fn front_of(version: u32, body: &[u8]) -> Front
    requires { rest_at version ≤ length body.now }
    ensures { result ≡ front_of version body.now }
{
    let start = start_of(version, body);
    Front {
        high: body[0],
        low: body[1],
        flags: body[2],
        length: body[3],
        start,
    }
}
