ghost use Rattle.std.specs.Prelude.{◌≤◌};

// A number of at most MOST.
#[derive(Clone, Copy)]
pub struct UpTo<const MOST: u32> {
    pub value: u32,
    ghost small: { value ≤ MOST },
}

// A D/A code: 12 bits.
pub type Code = UpTo<0xfff>;

// An encoder's number: 24 bits.
pub type Count = UpTo<0xff_ffff>;
