ghost use Rattle.std.specs.Prelude.{◌≡◌};
ghost use Rattle.guards.specs.Watchdogs.{fresh_watchdog, ran, with_preload, controlled, cleared_rise, armed, due};

// The watchdog: a counter whose output toggles each time it runs down.
#[derive(Clone, Copy)]
pub struct Watchdog {
    pub count: u32,
    // What the count begins with, in the low and in the high half of the output's wave.
    pub preload: u32,
    // EN: it counts. ACT: its rise holds the card. SEL: the line tells of the hold, not of the output.
    pub enabled: bool,
    pub active: bool,
    pub selected: bool,
    pub output: bool,
    // The output has risen.
    pub rose: bool,
}

// A write of the control bits. LD asks for a load.
#[derive(Clone, Copy)]
pub struct Control {
    pub enabled: bool,
    pub load: bool,
    pub active: bool,
    pub selected: bool,
}

impl Watchdog {
    // A new watchdog: zeros.
    pub fn new() -> Watchdog
        ensures { result ≡ fresh_watchdog }
    {
        Watchdog {
            count: 0,
            preload: 0,
            enabled: false,
            active: false,
            selected: false,
            output: false,
            rose: false,
        }
    }

    // One tick. At 0 the output toggles and the count begins again, else it goes down by one.
    pub fn ran(self) -> Watchdog
        ensures { result ≡ ran self }
    {
        if !self.enabled {
            return self;
        }
        if self.count == 0 {
            Watchdog {
                count: self.preload,
                output: !self.output,
                rose: self.rose | !self.output,
                ..self
            }
        } else {
            Watchdog {
                count: self.count - 1,
                ..self
            }
        }
    }

    // A write of the preload. It leaves the count.
    pub fn with_preload(self, preload: u32) -> Watchdog
        ensures { result ≡ with_preload self preload }
    {
        Watchdog { preload, ..self }
    }

    // The control bits are stored, then a load is made if it is asked for: it puts the output low, and the count
    // begins again.
    pub fn controlled(mut self, control: Control) -> Watchdog
        ensures { result ≡ controlled self control }
    {
        self.enabled = control.enabled;
        self.active = control.active;
        self.selected = control.selected;
        if control.load {
            self.count = self.preload;
            self.output = false;
        }
        self
    }

    // The rise is taken back where `clear` says so.
    pub fn cleared(self, clear: bool) -> Watchdog
        ensures { result ≡ cleared_rise self clear }
    {
        Watchdog {
            rose: self.rose & !clear,
            ..self
        }
    }

    // It will hold the card when its count runs down.
    pub fn armed(self) -> bool
        ensures { result ≡ armed self }
    {
        self.enabled & self.active & !self.output & !self.rose
    }

    // In how many ticks the output of an armed watchdog rises.
    pub fn due(self) -> Option<u64>
        ensures { result ≡ due self }
    {
        self.armed().then(|| u64::from(self.count) + 1)
    }
}
