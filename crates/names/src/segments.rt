// The segment names, by segment number.
ghost use Rattle.std.specs.Prelude.{◌≡◌};
ghost use Rattle.text.specs.Code.{Room, Put};
ghost use Rattle.names.specs.Registers.{segments, segment_name};

use text::words::{Table, Words};

// The segments, of which 0 is none.
#[derive(Drop)]
pub struct SegmentWords;

impl Words for SegmentWords {
    ghost words = { segments };
}

pub type SegmentTable = Table<SegmentWords, 12, 8>;

#[tactic(auto, unfolding(crate::specs::Registers::segments))]
pub fn segments() -> SegmentTable {
    Table::new(*b"escsssdsfsgs", [0, 0, 2, 4, 6, 8, 10, 12])
}

// The name of a segment. The number 0 is none.
#[tactic(auto, unfolding(crate::specs::Registers::segment_name))]
pub fn put_segment(buf: &mut [u8], at: usize, segment: u8) -> usize
    requires { Room buf.old at (segment_name segment) }
    ensures { Put buf.old at (segment_name segment) result buf.new }
{
    segments().put(buf, at, segment as usize)
}
