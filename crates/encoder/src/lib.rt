// The eight quadrature encoders of a card.
#![tactic(auto)]

pub mod channel;
pub mod eight;
#[cfg(test)]
mod tests;
pub mod turn;
