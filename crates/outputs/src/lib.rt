// The eight analog outputs of a card.
#![tactic(auto)]

pub mod channels;
pub mod mode;
#[cfg(test)]
mod tests;
