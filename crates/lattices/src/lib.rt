// Word lattices over a caller's words, and over a caller's bytes.
#![tactic(auto)]

pub mod fault;
pub mod heard;
#[cfg(test)]
mod tests;
pub mod typed;
