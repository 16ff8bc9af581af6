// The digits of a number, and how many it takes.
ghost use Rattle.std.specs.Prelude.{◌≡◌, ◌<◌};
ghost use Rattle.text.specs.Code.{Room, Put};
ghost use Rattle.numerals.specs.Digits.{digit as digit_of, digits as digits_of};
ghost use Rattle.numerals.specs.Code.{TopOf};

// How many digits a numeral has, and its top one.
#[derive(Clone, Copy)]
pub struct Top {
    pub places: usize,
    pub digit: u32,
}

// By one comparison a place: the digit falls out of the same test.
#[tactic(auto, unfolding(crate::specs::Digits::places, crate::specs::Digits::places_from))]
pub fn top_of(v: u32) -> Top
    ensures { TopOf v result.places result.digit }
{
    if v < 0x10 {
        return Top {
            places: 1,
            digit: v,
        };
    }
    if v < 0x100 {
        return Top {
            places: 2,
            digit: v / 0x10,
        };
    }
    if v < 0x1000 {
        return Top {
            places: 3,
            digit: v / 0x100,
        };
    }
    if v < 0x1_0000 {
        return Top {
            places: 4,
            digit: v / 0x1000,
        };
    }
    if v < 0x10_0000 {
        return Top {
            places: 5,
            digit: v / 0x1_0000,
        };
    }
    if v < 0x100_0000 {
        return Top {
            places: 6,
            digit: v / 0x10_0000,
        };
    }
    if v < 0x1000_0000 {
        return Top {
            places: 7,
            digit: v / 0x100_0000,
        };
    }
    Top {
        places: 8,
        digit: v / 0x1000_0000,
    }
}

#[tactic(auto, unfolding(crate::specs::Digits::digit))]
fn digit(d: u8) -> u8
    requires { d < 16 }
    ensures { result ≡ digit_of d }
{
    if d < 10 { b'0' + d } else { b'A' + (d - 10) }
}

// The last k digits of v, written from the last one.
pub fn put_digits(buf: &mut [u8], at: usize, k: usize, v: u32) -> usize
    requires { Room buf.old at (digits_of k v) }
    ensures { Put buf.old at (digits_of k v) result buf.new }
{
    let mut left = v;
    for i in (0..k).rev() {
        buf[at + i] = digit((left % 16) as u8);
        left /= 16;
    }
    at + k
}
