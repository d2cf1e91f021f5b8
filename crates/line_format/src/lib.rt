// The input format: from bytes to words.
#![tactic(auto)]

pub mod fault;
pub mod input;
mod line;
mod number;
mod split;
#[cfg(test)]
mod tests;
pub mod text;
