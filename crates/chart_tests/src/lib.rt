// Tests of charts over grammars and lattices of several kinds.
#![tactic(auto)]

#[cfg(test)]
mod tests;
