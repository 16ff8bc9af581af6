// What each arm of document 000's `contextualize` shows of a record, as a plan of the line; and answers 4, 5 and 7. An arm asks the body
// for what it tests and makes no text.
#![tactic(auto)]

pub mod decorations;
pub mod labels;
pub mod plans;
pub mod shapes;
pub mod sizes;
mod tests;
