// Numbers out of a listing: big-endian.
ghost use Rattle.std.specs.Prelude.{◌≡◌, ◌+◌, ◌^◌, ◌≤◌, ◌<◌, length};
ghost use Rattle.frames.specs.Numbers.{byte, word, dword};

pub fn byte_at(xs: &[u8], at: usize) -> u32
    requires { at + 1 ≤ length xs.now }
    ensures value { result ≡ byte xs.now at }
    ensures upper_bound { result < 2 ^ 8 }
{
    u32::from(xs[at])
}

pub fn word_at(xs: &[u8], at: usize) -> u16
    requires { at + 2 ≤ length xs.now }
    ensures { result ≡ word xs.now at }
{
    u16::from_be_bytes([xs[at], xs[at + 1]])
}

pub fn dword_at(xs: &[u8], at: usize) -> u32
    requires { at + 4 ≤ length xs.now }
    ensures { result ≡ dword xs.now at }
{
    u32::from_be_bytes([xs[at], xs[at + 1], xs[at + 2], xs[at + 3]])
}
