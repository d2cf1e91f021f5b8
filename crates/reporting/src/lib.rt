// Table-driven tests: cases, each reported in a line, and counted.
#![tactic(auto)]

pub mod case;
pub mod reporter;
pub mod tally;
