ghost use Rattle.std.specs.Prelude.{◌≡◌};
ghost use Rattle.encoder.specs.Channels.{fresh, preset_to, wired, counted, moved, stepped, commanded};

use crate::turn::{Levels, Turn, turned};
use bits::number::Count;

// One encoder.
#[derive(Clone, Copy)]
pub struct Encoder {
    // The wires as they stand, and as the last tick sampled them.
    pub wires: Levels,
    pub sample: Levels,
    // Whether it counts.
    pub enabled: bool,
    pub count: Count,
    pub preset: Count,
    pub latch: Count,
    // A carry or a borrow has come; both levels have changed at once.
    pub wrapped: bool,
    pub lost: bool,
}

impl Encoder {
    // A new encoder: zeros.
    pub fn new() -> Encoder
        ensures { result ≡ fresh }
    {
        let low = Levels { a: false, b: false };
        Encoder {
            wires: low,
            sample: low,
            enabled: false,
            count: Count::of(0),
            preset: Count::of(0),
            latch: Count::of(0),
            wrapped: false,
            lost: false,
        }
    }

    // The encoder after a turn that counts.
    fn counted(self, turn: Turn) -> Encoder
        ensures { result ≡ counted self turn }
    {
        let count = self.count.value;
        match turn {
            Turn::Still => self,
            Turn::Up => Encoder {
                count: Count::of(count + 1),
                wrapped: self.wrapped | (count == 0xff_ffff),
                ..self
            },
            Turn::Down => Encoder {
                count: Count::of(count + 0xff_ffff),
                wrapped: self.wrapped | (count == 0),
                ..self
            },
            Turn::Lost => Encoder { lost: true, ..self },
        }
    }

    // Whether the wires have changed since the last sample.
    pub(crate) fn moved(self) -> bool
        ensures { result ≡ moved self }
    {
        self.wires != self.sample
    }

    // One tick: the wires are sampled, and what changed since the sample before counts.
    pub fn stepped(self) -> Encoder
        ensures { result ≡ stepped self }
    {
        let turn = if self.enabled {
            turned(self.sample, self.wires)
        } else {
            Turn::Still
        };
        let sampled = Encoder {
            sample: self.wires,
            ..self
        };
        sampled.counted(turn)
    }

    pub fn with_preset(self, preset: Count) -> Encoder
        ensures { result ≡ preset_to self preset }
    {
        Encoder { preset, ..self }
    }

    pub fn with_wires(self, wires: Levels) -> Encoder
        ensures { result ≡ wired self wires }
    {
        Encoder { wires, ..self }
    }

    // Latches the count, loads the preset and clears the count, in this order, as far as asked. Three flags and no struct:
    // one function takes them, and one calls it.
    pub fn commanded(mut self, latch: bool, load: bool, clear: bool) -> Encoder
        ensures { result ≡ commanded self latch load clear }
    {
        if latch {
            self.latch = self.count;
        }
        if load {
            self.count = self.preset;
        }
        if clear {
            self.count = Count::of(0);
        }
        self
    }
}
