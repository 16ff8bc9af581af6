// The size labels, by their place in the list of labels. The table is lent.
ghost use Rattle.std.specs.Prelude.{◌≡◌};
ghost use Rattle.text.specs.Code.{Room, Put};
ghost use Rattle.names.specs.Labels.{labels, label_word};

use text::words::{Table, Words};

// The labels, each with its `ptr`.
#[derive(Drop)]
pub struct LabelWords;

impl Words for LabelWords {
    ghost words = { labels };
}

pub type LabelTable = Table<LabelWords, 105, 12>;

#[tactic(auto, unfolding(crate::specs::Labels::labels))]
pub fn labels() -> LabelTable {
    Table::new(
        *b"byte ptr word ptr dword ptr qword ptr xmmword ptr ymmword ptr zmmword ptr mmword ptr fword ptr tbyte ptr ",
        [0, 0, 9, 18, 28, 38, 50, 62, 74, 85, 95, 105],
    )
}

// A label with its `ptr`. A number that is no label's has none.
#[tactic(auto, unfolding(crate::specs::Labels::label_word))]
pub fn put_label(buf: &mut [u8], at: usize, table: &LabelTable, label: u8) -> usize
    requires { Room buf.old at (label_word label) }
    ensures { Put buf.old at (label_word label) result buf.new }
{
    table.put(buf, at, label as usize)
}
