// Answers: how many bytes were printed, or why none were.
#![tactic(auto)]

ghost use Rattle.std.specs.Prelude.{◌≡◌, ◌<◌};
ghost use Rattle.text.specs.Code.{Room, Put};
ghost use Rattle.answers.specs.Lines.{decimal, refused_text, refused_line};
ghost use Rattle.answers.specs.Outcomes.{Gives};
ghost use Rattle.answers.specs.Code.{text_outcome};
ghost use Rattle.answers.specs.Reasons.{number_of};
ghost use Rattle.answers.specs.declared.Refused.TheVariants.{For};

// Why a record, or what is asked, is refused before there is a buffer.
#[derive(Clone, Copy, PartialEq, Eq)]
pub enum Reason {
    Mode,
    Length,
    Field,
    Shape,
    Size,
    Broadcast,
}

impl Reason {
    // Its number in documents 01 and 02.
    pub fn number(self) -> u8
        ensures { result ≡ number_of self }
    {
        match self {
            Reason::Mode => 1,
            Reason::Length => 2,
            Reason::Field => 3,
            Reason::Shape => 4,
            Reason::Size => 5,
            Reason::Broadcast => 7,
        }
    }
}

// Why an entry point prints nothing: there is a reason in what it was given, or the text needs more room than there is.
#[derive(Clone, Copy, PartialEq, Eq)]
pub enum Refused {
    For(Reason),
    Room { needed: usize },
}

impl From<Reason> for Refused {
    ghost from_gives = { λ reason refused. refused ≡ For reason };

    fn from(reason: Reason) -> Self {
        Refused::For(reason)
    }
}

// An entry point's answer: the number of bytes written, or why there are none.
pub type Answer = Result<usize, Refused>;

// What is said of a record that is refused, without the newline.
pub fn put_refusal(text: &mut [u8], at: usize, n: u8) -> usize
    requires n_bound { n < 100 }
    requires room { Room text.old at (refused_text n) }
    ensures { Put text.old at (refused_text n) result text.new }
{
    let next = text::put_bytes(text, at, b"; refused ");
    put_decimal(text, next, n)
}

// The line of a record that is refused.
pub fn put_refused(text: &mut [u8], at: usize, n: u8) -> usize
    requires n_bound { n < 100 }
    requires room { Room text.old at (refused_line n) }
    ensures { Put text.old at (refused_line n) result text.new }
{
    let next = put_refusal(text, at, n);
    text::put_byte(text, next, b'\n')
}

fn put_decimal(text: &mut [u8], at: usize, n: u8) -> usize
    requires n_bound { n < 100 }
    requires room { Room text.old at (decimal n) }
    ensures { Put text.old at (decimal n) result text.new }
{
    if n < 10 {
        return text::put_byte(text, at, b'0' + n);
    }
    let next = text::put_byte(text, at, b'0' + n / 10);
    text::put_byte(text, next, b'0' + n % 10)
}

// A text that nothing refuses but the room.
pub fn print_text(printed: &[u8], text: &mut [u8]) -> Answer
    ensures { Gives (text_outcome printed.now text.old) result text.new }
{
    if text.len() < printed.len() {
        return Err(Refused::Room {
            needed: printed.len(),
        });
    }
    Ok(text::put_bytes(text, 0, printed))
}
