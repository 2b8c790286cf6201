use crate::place::Place;

// The member that a place of a pair belongs to, and the place as that member counts it.
#[derive(Clone, Copy)]
pub enum Member {
    First(Place),
    Second(Place),
}
