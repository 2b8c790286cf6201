// A converter chip: four analog inputs, of which those that are selected are converted one by one.
#![tactic(auto)]

pub mod chip;
pub mod inputs;
pub mod queue;
#[cfg(test)]
mod tests;
