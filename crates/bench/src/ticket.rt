ghost use Rattle.std.specs.Prelude.{◌≡◌};

// An interrupt that was taken: the place and its pending bits. It has to be acknowledged: the type is not `Drop`, so
// a ticket that is let go is refused.
pub struct Ticket {
    place: u8,
    bits: u32,
}

impl Ticket {
    pub(crate) fn new(place: u8, bits: u32) -> Ticket
        ensures { result ≡ record { place = place; bits = bits } }
    {
        Ticket { place, bits }
    }

    pub fn place(&self) -> u8
        ensures { result ≡ self.now.place }
    {
        self.place
    }

    pub fn bits(&self) -> u32
        ensures { result ≡ self.now.bits }
    {
        self.bits
    }

    // The only end of a ticket.
    pub(crate) fn spend(self) {
        let Ticket { place: _, bits: _ } = self;
    }
}
