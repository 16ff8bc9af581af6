// The register names, by register byte. Those of the banks 0 to 3 are words of a table, which is lent. Those of a bank from 4 up differ
// in a digit alone and are built: the stem of the bank, the number and, for st, what closes.
ghost use Rattle.std.specs.Prelude.{◌≡◌, [], ◌∷◌, ◌++◌, ◌<◌};
ghost use Rattle.text.specs.Code.{Room, Put};
ghost use Rattle.text.specs.Words.{bytes};
ghost use Rattle.names.specs.Registers.{tabled, register_name};
ghost use Rattle.names.specs.Code.{stem as stem_of, digit};

use text::words::{Table, Words};

// The names of the banks 0 to 3.
#[derive(Drop)]
pub struct RegisterWords;

impl Words for RegisterWords {
    ghost words = { tabled };
}

pub type RegisterTable = Table<RegisterWords, 68, 33>;

#[tactic(auto, unfolding(crate::specs::Registers::registers))]
pub fn registers() -> RegisterTable {
    Table::new(
        *b"eaxecxedxebxespebpesiediaxcxdxbxspbpsidialcldlblahchdhbhescsssdsfsgs",
        [
            0, 3, 6, 9, 12, 15, 18, 21, 24, 26, 28, 30, 32, 34, 36, 38, 40, 42, 44, 46, 48, 50, 52,
            54, 56, 58, 60, 62, 64, 66, 68, 68, 68,
        ],
    )
}

// A stem and the number of the register.
fn put_numbered(buf: &mut [u8], at: usize, stem: &[u8], number: u8) -> usize
    requires number_bound { number < 8 }
    requires room { Room buf.old at (stem.now ++ (digit number ∷ [])) }
    ensures { Put buf.old at (stem.now ++ (digit number ∷ [])) result buf.new }
{
    let next = text::put_bytes(buf, at, stem);
    text::put_byte(buf, next, b'0' + number)
}

// What stands before mm in xmm, ymm and zmm: x, y and z stand side by side, as the banks do. The three share all else, so that the
// processor need not guess which of them comes next.
fn letter(bank: u8) -> u8
    requires lt_bank { 5 < bank }
    requires bank_bound { bank < 9 }
    ensures { result ∷ bytes "mm" ≡ stem_of bank }
{
    b'x' + (bank - 6)
}

// The name of a register. A byte that is no register has none. The stems are words in the arms, by bank, and no array: that would be
// stored to the stack for each register. The compiler keeps this one function, which four places call.
pub fn put_register(buf: &mut [u8], at: usize, table: &RegisterTable, reg: u8) -> usize
    requires { Room buf.old at (register_name reg) }
    ensures { Put buf.old at (register_name reg) result buf.new }
{
    let bank = reg / 8;
    if bank < 4 {
        return table.put_short(buf, at, reg as usize);
    }
    let number = reg % 8;
    match bank {
        4 => {
            let next = put_numbered(buf, at, b"st(", number);
            text::put_bytes(buf, next, b")")
        }
        5 => put_numbered(buf, at, b"mm", number),
        6 | 7 | 8 => {
            let next = text::put_byte(buf, at, letter(bank));
            put_numbered(buf, next, b"mm", number)
        }
        9 => put_numbered(buf, at, b"k", number),
        _ => at,
    }
}
