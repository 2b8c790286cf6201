ghost use Rattle.std.specs.Prelude.{◌≡◌, ◌%◌, cond, nat_lt};
ghost use Rattle.station.specs.declared.refusal.Refusal.TheVariants.{NotAllowed};
ghost use Rattle.board.specs.Registers.{named};
ghost use Rattle.board.specs.Wires.{wire_numbered, with_analog, with_levels, wired};

use crate::parts::Board;
use bits::words::bit;
use encoder::turn::Levels;
use station::refusal::Refusal;

// A wire of the card.
#[derive(Clone, Copy)]
pub enum Wire {
    // 00 to 07: the analog inputs, codes of 14 bits.
    Analog { channel: u8 },
    // 08: the digital lines.
    Digital,
    // 09 to 10: the encoders, A in bit 0 and B in bit 1.
    Encoder { number: u8 },
    // 12: the fuse, 1 where it is blown.
    Fuse,
}

impl TryFrom<u8> for Wire {
    type Error = Refusal;

    ghost try_from_gives = { λ number wire. wire ≡ named (wire_numbered number) };

    fn try_from(number: u8) -> Result<Wire, Refusal> {
        match number {
            0..8 => Ok(Wire::Analog { channel: number }),
            8 => Ok(Wire::Digital),
            9..17 => Ok(Wire::Encoder { number: number - 9 }),
            18 => Ok(Wire::Fuse),
            _ => Err(Refusal::NoSuch),
        }
    }
}

// Refuses a level that is too wide.
fn below(level: u32, size: u32) -> Result<(), Refusal>
    ensures { result ≡ cond (nat_lt level size) (Ok tt) (Err NotAllowed) }
{
    if level < size {
        Ok(())
    } else {
        Err(Refusal::NotAllowed)
    }
}

impl Board {
    fn with_analog(mut self, channel: u8, code: u16) -> Board
        ensures { result ≡ with_analog self (channel % 8) code }
    {
        let channel = channel % 8;
        if channel < 4 {
            self.low = self.low.with_wire(channel, code);
        } else {
            self.high = self.high.with_wire(channel - 4, code);
        }
        self
    }

    fn with_levels(mut self, number: u8, level: u32) -> Board
        ensures { result ≡ with_levels self (number % 8) level }
    {
        let n = usize::from(number % 8);
        let levels = Levels {
            a: bit(level, 0),
            b: bit(level, 1),
        };
        self.encoders[n] = self.encoders[n].with_wires(levels);
        self
    }

    // The board after a wire is set, if the level is not too wide for it.
    pub fn wired(self, wire: Wire, level: u32) -> Result<Board, Refusal>
        ensures { result ≡ wired self wire level }
    {
        match wire {
            Wire::Analog { channel } => {
                below(level, 0x4000)?;
                Ok(self.with_analog(channel, level as u16))
            }
            Wire::Digital => Ok(Board {
                port: self.port.with_wires(level),
                ..self
            }),
            Wire::Encoder { number } => {
                below(level, 4)?;
                Ok(self.with_levels(number, level))
            }
            Wire::Fuse => {
                below(level, 2)?;
                Ok(Board {
                    fuse: self.fuse.with_wire(level == 1),
                    ..self
                })
            }
        }
    }
}
