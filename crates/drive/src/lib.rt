// The motor drive: a station of one place, with a set point, a fall latch and a stop wire.
#![tactic(auto)]

pub mod calls;
pub mod motor;
pub mod register;
pub mod state;
