ghost use Rattle.std.specs.Prelude.{◌≡◌};
ghost use Rattle.drive.specs.Registers.{numbered};

use station::refusal::Refusal;

#[derive(Clone, Copy)]
pub enum Register {
    // 00: the set point, a signed 16-bit number in bits 0 to 15.
    Setpoint,
    // 01: bit 0, whether the drive listens to the line.
    Listen,
    // 02: bit 0, the fall latch, which a 1 clears.
    Fall,
}

impl TryFrom<u8> for Register {
    type Error = Refusal;

    ghost try_from_gives = { λ number answer. answer ≡ numbered number };

    fn try_from(number: u8) -> Result<Register, Refusal> {
        match number {
            0 => Ok(Register::Setpoint),
            1 => Ok(Register::Listen),
            2 => Ok(Register::Fall),
            _ => Err(Refusal::NoSuch),
        }
    }
}
