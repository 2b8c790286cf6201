ghost use Rattle.std.specs.Prelude.{◌≡◌, ◌%◌};
ghost use Rattle.converter.specs.Chips.{fresh, started, ended_channel, advanced, on, read_of, moved_on, cleared};

use crate::queue::{extended, number, queue};

// A channel is converted in so many ticks.
const TICKS: u8 = 80;

// What the chip is doing. An enum, where an Option would do: the project's rules name the two states.
#[derive(Clone, Copy)]
pub enum Phase {
    Idle,
    // The sample at a place of the queue is being converted, and so many ticks are left.
    Converting { place: u8, left: u8 },
}

// What can happen to the chip.
#[derive(Clone, Copy)]
pub enum Event {
    Start { mask: u8, wires: [u16; 4] },
    Tick,
}

#[derive(Clone, Copy)]
pub struct Chip {
    pub phase: Phase,
    // How many channels the last start selected, and their samples. Fixed memory with its length beside it, since a
    // card is copied whole and allocates nothing.
    pub number: u8,
    pub samples: [u16; 4],
    // The results, and the place that is read next.
    pub results: [u16; 4],
    pub next: u8,
    // A conversion has ended; all of them have.
    pub ended: bool,
    pub done: bool,
}

impl Chip {
    // A new chip: idle, zeros.
    pub fn new() -> Chip
        ensures { result ≡ fresh }
    {
        Chip {
            phase: Phase::Idle,
            number: 0,
            samples: [0; 4],
            results: [0; 4],
            next: 0,
            ended: false,
            done: false,
        }
    }

    // A start samples the selected channels and begins with the first, if there is one.
    fn started(self, mask: u8, wires: [u16; 4]) -> Chip
        ensures { result ≡ started self mask wires }
    {
        let number = number(mask);
        let samples = queue(mask, wires);
        let phase = if number == 0 {
            Phase::Idle
        } else {
            Phase::Converting {
                place: 0,
                left: TICKS,
            }
        };
        Chip {
            phase,
            number,
            samples,
            next: 0,
            ..self
        }
    }

    // The conversion of a place ends: its result is there, and the next one begins if there is one.
    fn end_channel(&mut self, place: u8)
        ensures { self.new ≡ ended_channel self.old (place % 4) }
    {
        let place = place % 4;
        let more = place + 1 < self.number;
        self.results[usize::from(place)] = self.samples[usize::from(place)];
        self.phase = if more {
            Phase::Converting {
                place: place + 1,
                left: TICKS,
            }
        } else {
            Phase::Idle
        };
        self.ended = true;
        self.done |= !more;
    }

    // One tick of a conversion.
    fn advance(&mut self, place: u8, left: u8)
        ensures { self.new ≡ advanced self.old place left }
    {
        if left > 1 {
            self.phase = Phase::Converting {
                place,
                left: left - 1,
            };
        } else {
            self.end_channel(place);
        }
    }

    // What an event makes of the chip.
    pub fn on(&mut self, event: Event)
        ensures { self.new ≡ on self.old event }
    {
        match (self.phase, event) {
            (_, Event::Start { mask, wires }) => *self = self.started(mask, wires),
            (Phase::Converting { place, left }, Event::Tick) => self.advance(place, left),
            (Phase::Idle, Event::Tick) => {}
        }
    }

    // What a read gives.
    pub fn read(self) -> u16
        ensures { result ≡ read_of self }
    {
        if self.number == 0 {
            0
        } else {
            extended(self.results[usize::from(self.next % 4)])
        }
    }

    pub fn moved_on(self) -> Chip
        ensures { result ≡ moved_on self }
    {
        if self.number == 0 {
            self
        } else {
            Chip {
                next: (self.next % 4 + 1) % self.number,
                ..self
            }
        }
    }

    // What the chip tells is taken back where a flag says so.
    pub fn cleared(self, ended: bool, done: bool) -> Chip
        ensures { result ≡ cleared self ended done }
    {
        Chip {
            ended: self.ended & !ended,
            done: self.done & !done,
            ..self
        }
    }
}
