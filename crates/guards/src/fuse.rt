ghost use Rattle.std.specs.Prelude.{◌≡◌};
ghost use Rattle.guards.specs.Fuses.{fresh_fuse, sampled, with_wire, cleared_fuse};

// The fuse of a card's outputs, which is its stop wire.
#[derive(Clone, Copy)]
pub struct Fuse {
    // Blown, as the wire stands and as the last tick sampled it.
    pub wire: bool,
    pub sample: bool,
    // It has been blown at a tick.
    pub blown: bool,
}

impl Fuse {
    pub fn new() -> Fuse
        ensures { result ≡ fresh_fuse }
    {
        Fuse {
            wire: false,
            sample: false,
            blown: false,
        }
    }

    // One tick.
    pub fn sampled(self) -> Fuse
        ensures { result ≡ sampled self }
    {
        Fuse {
            sample: self.wire,
            blown: self.blown | self.wire,
            ..self
        }
    }

    pub fn with_wire(self, wire: bool) -> Fuse
        ensures { result ≡ with_wire self wire }
    {
        Fuse { wire, ..self }
    }

    // Where `clear` says so it is no longer blown, unless the last sample was.
    pub fn cleared(self, clear: bool) -> Fuse
        ensures { result ≡ cleared_fuse self clear }
    {
        Fuse {
            blown: self.blown & (!clear | self.sample),
            ..self
        }
    }
}
