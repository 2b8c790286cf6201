// The Q8 card: a station of one place. Whatever changes it, a standing cause puts its outputs to rest.
#![tactic(auto)]

pub mod calls;
pub mod settled;
pub mod whole;
