ghost use Rattle.std.specs.Prelude.{◌≡◌, ◌%◌};
ghost use Rattle.converter.specs.Inputs.{fresh_inputs, with_wire, controlled};

use crate::chip::{Chip, Event};

// Four analog inputs: the chip that converts them, the mask of those that are selected, and the codes
// at their wires.
#[derive(Clone, Copy)]
pub struct Inputs {
    pub chip: Chip,
    pub select: u8,
    pub wires: [u16; 4],
}

impl Inputs {
    // New inputs: zeros.
    pub fn new() -> Inputs
        ensures { result ≡ fresh_inputs }
    {
        Inputs {
            chip: Chip::new(),
            select: 0,
            wires: [0; 4],
        }
    }

    // Sets the code at a wire, modulo 4.
    pub fn with_wire(mut self, wire: u8, code: u16) -> Inputs
        ensures { result ≡ with_wire self (wire % 4) code }
    {
        self.wires[usize::from(wire % 4)] = code;
        self
    }

    // Selects inputs; then, where that is asked for, their conversion starts.
    pub fn controlled(mut self, select: u8, start: bool) -> Inputs
        ensures { result ≡ controlled self select start }
    {
        self.select = select;
        if start {
            self.chip.on(Event::Start {
                mask: select,
                wires: self.wires,
            });
        }
        self
    }
}
