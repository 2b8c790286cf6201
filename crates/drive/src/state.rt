ghost use Rattle.std.specs.Prelude.{◌≡◌};
ghost use Rattle.drive.specs.Registers.{numbered, flag, word};
ghost use Rattle.drive.specs.States.{halted, passed, line, seen, fetched, written, wired};

use crate::register::Register;
use station::facts::Facts;
use station::refusal::Refusal;

// All that a drive holds.
#[derive(Clone, Copy)]
pub struct State {
    pub setpoint: i16,
    pub listen: bool,
    pub latch: bool,
    // The level of the line and of the stop wire at the last tick.
    pub heard: bool,
    pub stopped: bool,
    // The stop wire as it stands.
    pub stop: bool,
}

// A value of bit 0 alone.
fn flag(value: u32) -> Result<bool, Refusal>
    ensures { result ≡ flag value }
{
    if value < 2 {
        Ok(value == 1)
    } else {
        Err(Refusal::NotAllowed)
    }
}

// Sixteen bits in two's complement.
fn word(value: u32) -> Result<i16, Refusal>
    ensures { result ≡ word value }
{
    let bits = u16::try_from(value).map_err(|_| Refusal::NotAllowed)?;
    Ok(bits.cast_signed())
}

impl State {
    // A set latch puts the set point to 0.
    pub fn halted(self) -> State
        ensures { result ≡ halted self }
    {
        let setpoint = if self.latch { 0 } else { self.setpoint };
        State { setpoint, ..self }
    }

    // The level sent on: high unless the drive listens and is held.
    pub fn line(self) -> bool
        ensures { result ≡ line self }
    {
        !(self.listen & self.latch)
    }

    pub fn facts(self) -> Facts
        ensures { result ≡ seen self }
    {
        Facts {
            held: self.latch,
            rest: self.setpoint == 0,
            passes: self.listen,
            line: self.line(),
            ready: self.listen & !self.latch & self.heard,
            due: None,
            stop: self.stop,
            pending: 0,
        }
    }

    // What a register reads.
    pub fn read(self, register: u8) -> Result<u32, Refusal>
        ensures { result ≡ fetched self (numbered register) }
    {
        match Register::try_from(register)? {
            Register::Setpoint => Ok(u32::from(self.setpoint.cast_unsigned())),
            Register::Listen => Ok(u32::from(self.listen)),
            Register::Fall => Ok(u32::from(self.latch)),
        }
    }

    // One tick, in which the drive hears a level.
    pub fn passed(self, hears: bool) -> State
        ensures { result ≡ passed self hears }
    {
        let fall = self.listen & self.heard & !hears;
        State {
            latch: self.latch | self.stop | fall,
            heard: hears,
            stopped: self.stop,
            ..self
        }
    }

    // The state after a write.
    pub fn written(self, register: u8, value: u32) -> Result<State, Refusal>
        ensures { result ≡ written self (numbered register) value }
    {
        match Register::try_from(register)? {
            Register::Setpoint => {
                let setpoint = word(value)?;
                Ok(State { setpoint, ..self })
            }
            Register::Listen => {
                let listen = flag(value)?;
                Ok(State { listen, ..self })
            }
            Register::Fall => {
                let one = flag(value)?;
                let latch = self.latch & (!one | self.stopped);
                Ok(State { latch, ..self })
            }
        }
    }

    // The state after a wire is set.
    pub fn wired(self, wire: u8, level: u32) -> Result<State, Refusal>
        ensures { result ≡ wired self wire level }
    {
        if wire != 0 {
            return Err(Refusal::NoSuch);
        }
        let stop = flag(level)?;
        Ok(State { stop, ..self })
    }
}
