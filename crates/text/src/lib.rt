// Writing a text into a lent buffer: the one way in which every crate of the printer stores bytes; and words of a table.
#![tactic(auto)]

ghost use Rattle.std.specs.Prelude.{◌≡◌, [], ◌∷◌};
ghost use Rattle.text.specs.Choice.{when};
ghost use Rattle.text.specs.Code.{Room, Put};

pub mod words;

// One byte at a place.
pub fn put_byte(buf: &mut [u8], at: usize, b: u8) -> usize
    requires { Room buf.old at (b ∷ []) }
    ensures { Put buf.old at (b ∷ []) result buf.new }
{
    buf[at] = b;
    at + 1
}

// A text at a place, byte by byte: the copy of a part is a call of the C library's memmove where the compiler does not know its length,
// and then each function that this is joined to keeps its registers for a call.
pub fn put_bytes(buf: &mut [u8], at: usize, t: &[u8]) -> usize
    requires { Room buf.old at t.now }
    ensures { Put buf.old at t.now result buf.new }
{
    for i in 0..t.len() {
        buf[at + i] = t[i];
    }
    at + t.len()
}

// A text at a place, where it is called for.
pub fn put_when(buf: &mut [u8], at: usize, wanted: bool, t: &[u8]) -> usize
    requires { Room buf.old at (when wanted t.now) }
    ensures { Put buf.old at (when wanted t.now) result buf.new }
{
    if wanted { put_bytes(buf, at, t) } else { at }
}
