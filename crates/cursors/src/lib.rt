// A place in a listing that may still go on, and what stands there.
#![tactic(auto)]

ghost use Rattle.std.specs.Prelude.{◌≡◌};
ghost use Rattle.cursors.specs.Code.{place_after};

pub mod reader;
pub mod standing;

// What stands at a place: a record, by the places of its body; the end; too few bytes for a frame, and no more to come; or more bytes
// are wanted to tell.
#[derive(Clone, Copy)]
pub enum Stands {
    Body { start: usize, end: usize },
    End,
    Cut,
    More,
}

impl Stands {
    // The place after what stands at a place: a record's end; where none stands, the place itself.
    pub fn place_after(self, at: usize) -> usize
        ensures { result ≡ place_after at self }
    {
        match self {
            Stands::Body { end, .. } => end,
            Stands::End | Stands::Cut | Stands::More => at,
        }
    }
}
