// A listing's frames: the version byte, then a two-byte length, big-endian, and that many body bytes. What is cut is said here too.
#![tactic(auto)]

ghost use Rattle.std.specs.Prelude.{◌≡◌, ◌≤◌, length};
ghost use Rattle.frames.specs.Frames.{known_version};
ghost use Rattle.frames.specs.Code.{frame_at};

pub mod numbers;

// The version bytes that are known: document 01's, and document 02's, whose bodies hold a start address.
pub const VERSION_1: u32 = 1;

pub const VERSION_2: u32 = 2;

// A whole frame in a listing, by the places of its body.
#[derive(Clone, Copy)]
pub struct Frame {
    pub start: usize,
    pub end: usize,
}

pub fn known_version(version: u32) -> bool
    ensures { result ≡ known_version version }
{
    matches!(version, VERSION_1 | VERSION_2)
}

// The frame at a place, where there are not too few bytes for one.
pub fn frame_at(listing: &[u8], at: usize) -> Option<Frame>
    requires { at ≤ length listing.now }
    ensures { result ≡ frame_at listing.now at }
{
    let left = listing.len() - at;
    if left < 2 {
        return None;
    }
    let size = numbers::word_at(listing, at) as usize;
    if left - 2 < size {
        return None;
    }
    let start = at + 2;
    Some(Frame {
        start,
        end: start + size,
    })
}
