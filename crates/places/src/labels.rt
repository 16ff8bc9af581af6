// The labels by their numbers, which are their places in the table of labels. A plan holds the label itself; who has a number takes the
// label of it.
ghost use Rattle.std.specs.Prelude.{◌≡◌};
ghost use Rattle.places.specs.Labels.{label_at};

use operands::Label;

// The label of a number. Any other number is that of none.
#[tactic(auto, unfolding(crate::specs::Labels::label_at))]
pub fn label_at(number: u8) -> Label
    ensures { result ≡ label_at number }
{
    match number {
        1 => Label::Byte,
        2 => Label::Word,
        3 => Label::Dword,
        4 => Label::Qword,
        5 => Label::Xmmword,
        6 => Label::Ymmword,
        7 => Label::Zmmword,
        8 => Label::Mmword,
        9 => Label::Fword,
        10 => Label::Tbyte,
        11 => Label::Missing,
        _ => Label::None,
    }
}
