// Whether two runs of bytes are the same: eight bytes at a time. On bodies, which are short, that takes about half the time of `==`,
// which looks through all but the shortest slices in a call of its own.
ghost use Rattle.std.specs.Prelude.{◌≡◌, ◌+◌, ◌≤◌, length};
ghost use Rattle.text.specs.Words.{same};
ghost use Rattle.compared.specs.Eights.{Digit, Eight};

// A byte as a wider number. To contracts a list holds any numbers: that this one is below 256 is known here, from its type.
fn wide(x: u8) -> u64
    ensures { Digit x result }
{
    x as u64
}

// The eight bytes at a place as one number, the first its lowest digit. The compiler makes one load of it.
fn eight_at(xs: &[u8], at: usize) -> u64
    requires { at + 8 ≤ length xs.now }
    ensures { Eight xs.now at result }
{
    let mut n = wide(xs[at + 7]);
    n = n * 256 + wide(xs[at + 6]);
    n = n * 256 + wide(xs[at + 5]);
    n = n * 256 + wide(xs[at + 4]);
    n = n * 256 + wide(xs[at + 3]);
    n = n * 256 + wide(xs[at + 2]);
    n = n * 256 + wide(xs[at + 1]);
    n * 256 + wide(xs[at])
}

// The last eight are compared as such, whatever the length: so no bytes are left over, and fewer jumps are guessed wrong.
fn same_eights(a: &[u8], b: &[u8]) -> bool
    requires a_len { length a.now ≡ length b.now }
    requires in_bounds { 8 ≤ length b.now }
    ensures { result ≡ same a.now b.now }
{
    let last = b.len() - 8;
    let mut i = 0;
    while i < last {
        if eight_at(a, i) != eight_at(b, i) {
            return false;
        }
        i += 8;
    }
    eight_at(a, last) == eight_at(b, last)
}

pub fn same_bytes(a: &[u8], b: &[u8]) -> bool
    ensures { result ≡ same a.now b.now }
{
    if a.len() != b.len() {
        return false;
    }
    if b.len() < 8 {
        return a == b;
    }
    same_eights(a, b)
}
