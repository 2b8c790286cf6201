ghost use Rattle.std.specs.Prelude.{◌≡◌};
ghost use Rattle.guards.specs.Senses.{fresh_sense, heard, with_active, cleared_fall};

// What a card hears of the stop line.
#[derive(Clone, Copy)]
pub struct Sense {
    // The level at the last tick.
    pub high: bool,
    // The line has fallen.
    pub fell: bool,
    // EXT_ACT: a fall holds the card.
    pub active: bool,
}

impl Sense {
    // A new card has last heard high.
    pub fn new() -> Sense
        ensures { result ≡ fresh_sense }
    {
        Sense {
            high: true,
            fell: false,
            active: false,
        }
    }

    // One tick, in which a level is heard.
    pub fn heard(self, level: bool) -> Sense
        ensures { result ≡ heard self level }
    {
        Sense {
            high: level,
            fell: self.fell | self.high & !level,
            ..self
        }
    }

    pub fn with_active(self, active: bool) -> Sense
        ensures { result ≡ with_active self active }
    {
        Sense { active, ..self }
    }

    // The fall is taken back where `clear` says so.
    pub fn cleared(self, clear: bool) -> Sense
        ensures { result ≡ cleared_fall self clear }
    {
        Sense {
            fell: self.fell & !clear,
            ..self
        }
    }
}
