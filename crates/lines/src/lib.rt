// The text of a trace: lines of digits to commands, and answers to records.
#![tactic(auto)]

pub mod command;
pub mod cutting;
pub mod digits;
pub mod malformed;
pub mod parse;
pub mod record;
