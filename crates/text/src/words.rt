// A table of words, held as one text with an offset for each word.
ghost use Rattle.std.specs.Prelude.{◌≡◌, ◌+◌, ◌≤◌, ◌<◌, List, [], ℕ, length, get_or};
ghost use Rattle.text.specs.Words.{join, starts as starts_of};
ghost use Rattle.text.specs.Write.{write};
ghost use Rattle.text.specs.Code.{Room, Put};
ghost use Rattle.text.specs.Code.{part, Stands, word_at};

use crate::put_bytes;
use std::marker::PhantomData;

// Whose words a table holds.
pub trait Words {
    ghost words: { List (List ℕ) };
}

// The words as one text, and where each of them starts: one offset more than there are words.
#[derive(Drop)]
pub struct Table<W: Words, const LETTERS: usize, const STARTS: usize> {
    letters: [u8; LETTERS],
    starts: [u16; STARTS],
    of: PhantomData<W>,
    ghost text: { letters ≡ join W.words },
    ghost places: { starts ≡ starts_of 0 W.words },
}

impl<W: Words, const LETTERS: usize, const STARTS: usize> Table<W, LETTERS, STARTS> {
    pub fn new(letters: [u8; LETTERS], starts: [u16; STARTS]) -> Self
        requires text { letters ≡ join W.words }
        requires places { starts ≡ starts_of 0 W.words }
    {
        Table {
            letters,
            starts,
            of: PhantomData,
        }
    }

    // The word at k. Past the last one there is none.
    pub fn put(&self, buf: &mut [u8], at: usize, k: usize) -> usize
        requires { Room buf.old at (get_or W.words k []) }
        ensures { Put buf.old at (get_or W.words k []) result buf.new }
    {
        if self.starts.len() - 1 <= k {
            return at;
        }
        put_word(buf, at, &self.letters, &self.starts, k)
    }

    // The same, with a word of two or three letters put right here, by two copies of two letters that may overlap: that saves a call.
    pub fn put_short(&self, buf: &mut [u8], at: usize, k: usize) -> usize
        requires { Room buf.old at (get_or W.words k []) }
        ensures { Put buf.old at (get_or W.words k []) result buf.new }
    {
        if self.starts.len() - 1 <= k {
            return at;
        }
        let from = self.starts[k] as usize;
        let to = self.starts[k + 1] as usize;
        let n = to - from;
        if 2 <= n && n < 4 {
            copy::<2>(buf, at, &self.letters, from);
            copy::<2>(buf, at + n - 2, &self.letters, to - 2);
            return at + n;
        }
        put_word(buf, at, &self.letters, &self.starts, k)
    }
}

// N letters from an offset on. They are read as one value before any is stored, so that this is one load and one store.
pub fn copy<const N: usize>(buf: &mut [u8], at: usize, letters: &[u8], from: usize)
    requires from_in_bounds { from + N ≤ length letters.now }
    requires at_in_bounds { at + N ≤ length buf.old }
    ensures { buf.new ≡ write buf.old at (part letters.now from (from + N)) }
{
    let copied = *letters[from..from + N].as_array::<N>().unwrap();
    buf[at..at + N].copy_from_slice(&copied);
}

// The word at k: one of 2 to 16 letters by two copies of one size, from its first letter on and up to its last, which may overlap. One function for
// all who call it.
#[inline(never)]
pub fn put_word(buf: &mut [u8], at: usize, letters: &[u8], starts: &[u16], k: usize) -> usize
    requires stands { Stands letters.now starts.now k }
    requires room { Room buf.old at (word_at letters.now starts.now k) }
    ensures { Put buf.old at (word_at letters.now starts.now k) result buf.new }
{
    let from = starts[k] as usize;
    let to = starts[k + 1] as usize;
    let n = to - from;
    if n < 2 {
        return put_bytes(buf, at, &letters[from..to]);
    }
    if n < 4 {
        copy::<2>(buf, at, letters, from);
        copy::<2>(buf, at + n - 2, letters, to - 2);
        return at + n;
    }
    if n < 8 {
        copy::<4>(buf, at, letters, from);
        copy::<4>(buf, at + n - 4, letters, to - 4);
        return at + n;
    }
    if n <= 16 {
        copy::<8>(buf, at, letters, from);
        copy::<8>(buf, at + n - 8, letters, to - 8);
        return at + n;
    }
    put_bytes(buf, at, &letters[from..to])
}
