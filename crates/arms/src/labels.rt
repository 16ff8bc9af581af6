// The label that an arm calls for, by mem_size.
ghost use Rattle.std.specs.Prelude.{◌≡◌};
ghost use Rattle.arms.specs.Labels.{size_label, general_label, lss_label, tbyte_label};

use operands::Label;

// Document 01's labels by size.
#[tactic(auto, unfolding(crate::specs::Labels::size_label))]
pub fn size_label(size: u8) -> Label
    ensures { result ≡ size_label size }
{
    match size {
        1 => Label::Byte,
        2 => Label::Word,
        4 => Label::Dword,
        8 => Label::Qword,
        16 => Label::Xmmword,
        32 => Label::Ymmword,
        64 => Label::Zmmword,
        _ => Label::Missing,
    }
}

#[tactic(auto, unfolding(crate::specs::Labels::general_label))]
pub fn general_label(mmword: bool, fword: bool, size: u8) -> Label
    ensures { result ≡ general_label mmword fword size }
{
    match size {
        63 | 48 => Label::None,
        8 if mmword => Label::Mmword,
        6 if fword => Label::Fword,
        _ => size_label(size),
    }
}

#[tactic(auto, unfolding(crate::specs::Labels::lss_label))]
pub fn lss_label(size: u8) -> Label
    ensures { result ≡ lss_label size }
{
    match size {
        4 => Label::Dword,
        6 => Label::Fword,
        _ => Label::Missing,
    }
}

#[tactic(auto, unfolding(crate::specs::Labels::tbyte_label))]
pub fn tbyte_label(size: u8) -> Label
    ensures { result ≡ tbyte_label size }
{
    match size {
        10 => Label::Tbyte,
        _ => size_label(size),
    }
}
