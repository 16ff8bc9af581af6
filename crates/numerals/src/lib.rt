// Numbers as text: document 01's numerals, displacements and absolutes, and decimals.
#![tactic(auto)]

pub mod absolute;
pub mod decimals;
pub mod digits;
pub mod displacement;
pub mod numeral;
