// What happens between two calls of the system, as one function: steps, one after the other, and what they say.
ghost use Rattle.std.specs.Prelude.{◌≡◌, ◌+◌, ◌≤◌, length};
ghost use Rattle.compared.specs.Text.{longest_event};
ghost use Rattle.compared.specs.Pass.{Passes};

use crate::reading::Reading;
use crate::steps::step;
use crate::{Next, Passed, Stage};
use names::Tables;
use records::Asked;

// Room for what any step says.
pub const LONGEST_EVENT: usize = 704;

// Takes steps with the bytes that are there and puts what they say into the text from its start: until bytes are wanted, nothing is
// left to be said, or there is no room for what a step may say.
pub fn pass(
    tables: &Tables,
    stage: Stage,
    first: &[u8],
    first_ended: bool,
    second: &[u8],
    second_ended: bool,
    asked: Asked,
    text: &mut [u8],
) -> Passed
    requires longest_event_in_bounds { longest_event ≤ length text.old }
    ensures { Passes asked stage first.now second.now first_ended second_ended result text.new }
{
    let mut passed = Passed {
        stage,
        first: 0,
        second: 0,
        out: 0,
        next: Next::On,
    };
    while LONGEST_EVENT <= text.len() - passed.out {
        passed = step(
            tables,
            passed.stage,
            Reading::new(first, passed.first, first_ended),
            Reading::new(second, passed.second, second_ended),
            asked,
            text,
            passed.out,
        );
        if !matches!(passed.next, Next::On) {
            return passed;
        }
    }
    passed
}
