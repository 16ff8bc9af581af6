// What a relative branch shows: in document 01's two modes the word before `$`, and the sign and the size of distance plus length; in
// document 02's mode 2 the same word and the target.
#![tactic(auto)]

ghost use Rattle.std.specs.Prelude.{◌≡◌, ◌+◌, ℤ, pos, ◌+ℤ◌, unsigned_abs};
ghost use Rattle.branches.specs.Sums.{signed, below0, branch_sum, straight_word, arm_word, branch_word, target_of, shown_sum, branch_shown};
ghost use Rattle.branches.specs.Code.{parted};

use names::Arm;
use operands::kinds::{I8, I32};
use operands::{BranchWord, Shown};

// Document 01's modes: 0 is the crate's, 1 shows where a branch goes and, since document 02, how long it is. Document 02's mode 2 shows
// its target.
#[derive(Clone, Copy)]
pub enum Mode {
    Crate,
    Straight,
    Target,
}

// Distance plus length, by its sign and its size.
#[derive(Clone, Copy)]
pub struct Sum {
    pub minus: bool,
    pub size: u32,
}

// A branch operand: the arm that shows it, its kind, its distance as 32 bits, the instruction's length and its start address.
#[tactic(auto, unfolding(crate::specs::Sums::branch_shown))]
pub fn branch_shown(mode: Mode, arm: Arm, kind: u8, value: u32, length: u8, start: u32) -> Shown
    ensures { result ≡ branch_shown mode arm kind value length start }
{
    match mode {
        Mode::Crate | Mode::Straight => sum_shown(mode, arm, kind, value, length),
        Mode::Target => Shown::Target {
            word: arm_word(arm, kind),
            target: target_of(start, length, value),
        },
    }
}

fn sum_shown(mode: Mode, arm: Arm, kind: u8, value: u32, length: u8) -> Shown
    ensures { result ≡ shown_sum mode arm kind (branch_sum mode kind value length) }
{
    let Sum { minus, size } = branch_sum(mode, kind, value, length);
    let word = branch_word(mode, arm, kind, minus, size);
    Shown::Branch { word, minus, size }
}

// Where the branch goes: the next instruction plus the distance, both wrapped in 32 bits.
fn target_of(start: u32, length: u8, value: u32) -> u32
    ensures { result ≡ target_of start length value }
{
    start.wrapping_add(length as u32).wrapping_add(value)
}

#[tactic(auto, unfolding(crate::specs::Sums::branch_sum))]
fn branch_sum(mode: Mode, kind: u8, value: u32, length: u8) -> Sum
    ensures { result ≡ parted (branch_sum mode kind value length) }
{
    if kind == I8 {
        match mode {
            Mode::Crate => short_sum(value, length),
            Mode::Straight | Mode::Target => whole_sum(value, length),
        }
    } else {
        long_sum(value, length)
    }
}

// The word before `$`: in mode 0 by kind and sum, in mode 1 by arm and kind.
fn branch_word(mode: Mode, arm: Arm, kind: u8, minus: bool, size: u32) -> BranchWord
    ensures { (sum : ℤ) → minus ≡ below0 sum → size ≡ unsigned_abs sum → result ≡ branch_word mode arm kind sum }
{
    match mode {
        Mode::Crate => {
            if kind == I32 && !minus && matches!(size, 128..=255) {
                BranchWord::Near
            } else {
                BranchWord::None
            }
        }
        Mode::Straight | Mode::Target => arm_word(arm, kind),
    }
}

// CALL and XBEGIN have no short form.
fn arm_word(arm: Arm, kind: u8) -> BranchWord
    ensures { result ≡ arm_word arm kind }
{
    match arm {
        Arm::Call | Arm::Xbegin => BranchWord::None,
        _ => straight_word(kind),
    }
}

fn straight_word(kind: u8) -> BranchWord
    ensures { result ≡ straight_word kind }
{
    match kind {
        I32 => BranchWord::Near,
        I8 => BranchWord::Short,
        _ => BranchWord::None,
    }
}

// The 8-bit sum of mode 0, wrapped as the crate wraps it.
fn short_sum(value: u32, length: u8) -> Sum
    ensures { result ≡ parted (signed 8 (value + length)) }
{
    let distance = (value % 256) as u8;
    let sum = distance.wrapping_add(length).cast_signed();
    Sum {
        minus: sum < 0,
        size: sum.unsigned_abs() as u32,
    }
}

// The 32-bit sum, wrapped in both modes. The least sum's size is 2^31.
fn long_sum(value: u32, length: u8) -> Sum
    ensures { result ≡ parted (signed 32 (value + length)) }
{
    let sum = value.wrapping_add(length as u32).cast_signed();
    Sum {
        minus: sum < 0,
        size: sum.unsigned_abs(),
    }
}

// The whole sum of mode 1, for kind 3.
fn whole_sum(value: u32, length: u8) -> Sum
    ensures { result ≡ parted (signed 32 value +ℤ pos length) }
{
    let sum = value.cast_signed() as i64 + length as i64;
    Sum {
        minus: sum < 0,
        size: sum.unsigned_abs() as u32,
    }
}
