// What is to become of a place, if from now on no wire changes, no guard call is made and the
// outside line stays at one level. Ticks count from 1.
// Three outcomes with a name each: a Result of an Option would stand in the bench's answer as a Result in a Result.
#[derive(Clone, Copy)]
pub enum Forecast {
    // Nothing can be told, since that place is neither ready nor held and passing.
    Unsettled { place: u8 },
    // It will not be held.
    Never,
    // It will be held after so many ticks and not before; 0 where it is held already.
    At { tick: u128 },
}
