// The eight facts that a station tells of each of its places.
#[derive(Clone, Copy)]
pub struct Facts {
    // A cause to stand still is there.
    pub held: bool,
    // The outputs are at rest.
    pub rest: bool,
    // What holds this place is passed on down the line.
    pub passes: bool,
    // The level that the place sends on.
    pub line: bool,
    // It will fall at the tick that the rules name, and at no other.
    pub ready: bool,
    // In how many ticks it falls by itself, counted from 1.
    pub due: Option<u64>,
    // The level of the stop wire.
    pub stop: bool,
    // The bits of the interrupts that are enabled and stand.
    pub pending: u32,
}
