ghost use Rattle.std.specs.Prelude.{◌≡◌};
ghost use Rattle.guards.specs.Ports.{fresh_port, seen, with_latch, with_direction, with_wires};

// The 32 digital lines of a card, bit n for line n.
#[derive(Clone, Copy)]
pub struct Port {
    pub latch: u32,
    // 1 is an output.
    pub direction: u32,
    pub wires: u32,
}

impl Port {
    // A new card has undriven lines, which are pulled high.
    pub fn new() -> Port
        ensures { result ≡ fresh_port }
    {
        Port {
            latch: 0,
            direction: 0,
            wires: 0xffff_ffff,
        }
    }

    // What is read: the wire of an input as it stands, and the latch of an output.
    pub fn read(self) -> u32
        ensures { result ≡ seen self }
    {
        (self.wires & !self.direction) | (self.latch & self.direction)
    }

    pub fn with_latch(self, latch: u32) -> Port
        ensures { result ≡ with_latch self latch }
    {
        Port { latch, ..self }
    }

    pub fn with_direction(self, direction: u32) -> Port
        ensures { result ≡ with_direction self direction }
    {
        Port { direction, ..self }
    }

    pub fn with_wires(self, wires: u32) -> Port
        ensures { result ≡ with_wires self wires }
    {
        Port { wires, ..self }
    }
}
