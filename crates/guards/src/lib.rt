// What guards a card, and its digital port.
#![tactic(auto)]

pub mod fuse;
pub mod port;
pub mod sense;
#[cfg(test)]
mod tests;
pub mod watchdog;
