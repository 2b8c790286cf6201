// The parts of a Q8 card on one board: its registers, its wires and its tick, without the hold.
#![tactic(auto)]

pub mod parts;
pub mod reads;
pub mod register;
pub mod wires;
pub mod writes;
