// Three weighings: doubts added up, the worst doubt alone, and chances multiplied.
#![tactic(auto)]

pub mod chance;
pub mod sum;
#[cfg(test)]
mod tests;
pub mod worst;
