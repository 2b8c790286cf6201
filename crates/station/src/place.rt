ghost use Rattle.std.specs.Prelude.{◌≡◌, ◌-◌, ◌<◌};

// The number of a place that has an address: 0 to 15.
#[derive(Clone, Copy)]
pub struct Place {
    pub number: u8,
    ghost addressed: { number < 16 },
}

impl Place {
    // The same place as the second of two members counts it, where the first has `places`.
    pub fn after(self, places: u8) -> Place
        ensures { result.number ≡ self.number - places }
    {
        Place {
            number: self.number.saturating_sub(places),
        }
    }
}
