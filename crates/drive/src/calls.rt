ghost use Rattle.std.specs.Prelude.{◌≡◌, ℕ};
ghost use Rattle.drive.specs.declared.motor.Drive.{Drive};
ghost use Rattle.drive.specs.Rest.{Rest};
ghost use Rattle.drive.specs.Drives.{drive, settled, fresh};
ghost use Rattle.drive.specs.DrivesLemmas.{drive_rules};

use crate::motor::Drive;
use crate::state::State;
use station::Station;
use station::facts::Facts;
use station::place::Place;
use station::refusal::Refusal;

impl Drive {
    // A new drive: all 0, and the line last heard high.
    pub fn new() -> Drive
        ensures { result ≡ fresh }
    {
        Drive::settled(State {
            setpoint: 0,
            listen: false,
            latch: false,
            heard: true,
            stopped: false,
            stop: false,
        })
    }

    // The set point that is in force. A held drive is at rest: its set point is 0.
    pub fn setpoint(&self) -> i16
        ensures value { result ≡ self.now.state.setpoint }
        ensures rest { (d : Drive) (p : ℕ) → Rest d p }
    {
        self.state.setpoint
    }

    // The drive in a state, its set point 0 where the latch is set.
    #[tactic(auto, using(crate::specs::DrivesLemmas::same_drive), unfolding(crate::specs::Drives::settled))]
    fn settled(state: State) -> Drive
        ensures { result ≡ settled state }
    {
        Drive {
            state: state.halted(),
        }
    }
}

impl Station for Drive {
    ghost meaning = { drive };

    ghost rules = { drive_rules };

    fn places(&self) -> u8 {
        1
    }

    fn facts(&self, _place: Place) -> Facts {
        self.state.facts()
    }

    fn sends(&self) -> bool {
        self.state.line()
    }

    fn tick(&mut self, level: bool) {
        *self = Drive::settled(self.state.passed(level));
    }

    fn read(&mut self, _place: Place, register: u8) -> Result<u32, Refusal> {
        self.state.read(register)
    }

    fn write(&mut self, _place: Place, register: u8, value: u32) -> Result<(), Refusal> {
        *self = Drive::settled(self.state.written(register, value)?);
        Ok(())
    }

    fn wire(&mut self, _place: Place, wire: u8, level: u32) -> Result<(), Refusal> {
        *self = Drive::settled(self.state.wired(wire, level)?);
        Ok(())
    }

    fn volts(&self, _place: Place, channel: u8) -> Result<i32, Refusal> {
        if channel == 0 {
            Ok(i32::from(self.state.setpoint))
        } else {
            Err(Refusal::NoSuch)
        }
    }

    fn acknowledge(&mut self, _place: Place, _bits: u32) {}

    fn preload(&mut self, _place: Place, _ticks: u32) -> Result<(), Refusal> {
        Err(Refusal::NoSuch)
    }

    fn arm(&mut self, _place: Place) -> Result<(), Refusal> {
        Err(Refusal::NoSuch)
    }

    fn kick(&mut self, _place: Place) -> Result<(), Refusal> {
        Err(Refusal::NoSuch)
    }
}
