// Small numbers with their bound in the type, and the bits of words.
#![tactic(auto)]

pub mod number;
pub mod numbers;
pub mod words;
