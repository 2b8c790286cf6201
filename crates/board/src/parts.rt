ghost use Rattle.std.specs.Prelude.{◌≡◌};
ghost use Rattle.board.specs.Boards.{fresh, held, ticked};

use converter::chip::Event;
use converter::inputs::Inputs;
use encoder::channel::Encoder;
use encoder::eight::step_all;
use guards::fuse::Fuse;
use guards::port::Port;
use guards::sense::Sense;
use guards::watchdog::Watchdog;
use outputs::channels::Outputs;

// All parts of a card.
#[derive(Clone, Copy)]
pub struct Board {
    // Which interrupts are enabled.
    pub enabled: u32,
    pub watchdog: Watchdog,
    pub sense: Sense,
    pub fuse: Fuse,
    pub port: Port,
    pub outputs: Outputs,
    // The analog inputs 0 to 3 with chip 0, and 4 to 7 with chip 1.
    pub low: Inputs,
    pub high: Inputs,
    pub encoders: [Encoder; 8],
}

impl Board {
    // A new board.
    pub fn new() -> Board
        ensures { result ≡ fresh }
    {
        let outputs = Outputs::silent();
        let encoder = Encoder::new();
        Board {
            enabled: 0,
            watchdog: Watchdog::new(),
            sense: Sense::new(),
            fuse: Fuse::new(),
            port: Port::new(),
            outputs,
            low: Inputs::new(),
            high: Inputs::new(),
            encoders: [encoder; 8],
        }
    }

    // Whether a cause to hold the card stands.
    pub fn held(&self) -> bool
        ensures { result ≡ held self.now }
    {
        self.watchdog.rose & self.watchdog.active
            | self.sense.fell & self.sense.active
            | self.fuse.blown
    }

    // One tick: line and fuse are sampled, then the watchdog, the chips and the encoders go on.
    pub fn tick(&mut self, level: bool)
        ensures { self.new ≡ ticked self.old level }
    {
        self.sense = self.sense.heard(level);
        self.fuse = self.fuse.sampled();
        self.watchdog = self.watchdog.ran();
        self.low.chip.on(Event::Tick);
        self.high.chip.on(Event::Tick);
        step_all(&mut self.encoders);
    }

    // The board after one tick.
    pub fn ticked(self, level: bool) -> Board
        ensures { result ≡ ticked self level }
    {
        let mut board = self;
        board.tick(level);
        board
    }
}
