// Grammars: a caller's rules, the built-in stock counts, and a layer with a penalty over any grammar.
#![tactic(auto)]

pub mod checked;
pub mod count;
pub mod fault;
pub mod list;
pub mod penalized;
pub mod rule;
#[cfg(test)]
mod tests;
