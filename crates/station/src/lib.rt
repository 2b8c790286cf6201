// A station stands at one or more places of a chain. Its meaning, the rules that every kind keeps
// and the pair of two members are here; the kinds themselves are crates above this one.
#![tactic(auto)]

ghost use Rattle.std.specs.Prelude.{◌≡◌, min};
ghost use Rattle.station.specs.Meaning.{Meaning};
ghost use Rattle.station.specs.Rules.{Rules};
ghost use Rattle.station.specs.declared.call.Call.TheVariants.{Read, Write, Wire, Volts, Acknowledge, Preload, Arm, Kick};

use facts::Facts;
use place::Place;
use refusal::Refusal;

pub mod call;
pub mod facts;
pub mod joined;
pub mod member;
pub mod place;
pub mod refusal;

// What can be asked of a chain and done to it. A level is `true` where it is high.
pub trait Station {
    // What the station is: see `Meaning`.
    ghost meaning: { Meaning Self };

    // The number of places, 16 standing also for more.
    fn places(&self) -> u8
        ensures { result ≡ min 16 (meaning.size self.now) };

    fn facts(&self, place: Place) -> Facts
        ensures { result ≡ meaning.fact self.now place.number };

    // The level that the last place sends on.
    fn sends(&self) -> bool
        ensures { result ≡ meaning.sends self.now };

    // One tick, in which place 0 hears `level`.
    fn tick(&mut self, level: bool)
        ensures { self.new ≡ meaning.ticked self.old level };

    fn read(&mut self, place: Place, register: u8) -> Result<u32, Refusal>
        ensures value { result ≡ meaning.answer self.old place.number (Read register) }
        ensures after { self.new ≡ meaning.called self.old place.number (Read register) };

    fn write(&mut self, place: Place, register: u8, value: u32) -> Result<(), Refusal>
        ensures value { result ≡ meaning.answer self.old place.number (Write register value) }
        ensures after { self.new ≡ meaning.called self.old place.number (Write register value) };

    fn wire(&mut self, place: Place, wire: u8, level: u32) -> Result<(), Refusal>
        ensures value { result ≡ meaning.answer self.old place.number (Wire wire level) }
        ensures after { self.new ≡ meaning.called self.old place.number (Wire wire level) };

    fn volts(&self, place: Place, channel: u8) -> Result<i32, Refusal>
        ensures { result ≡ meaning.answer self.now place.number (Volts channel) };

    fn acknowledge(&mut self, place: Place, bits: u32)
        ensures { self.new ≡ meaning.called self.old place.number (Acknowledge bits) };

    fn preload(&mut self, place: Place, ticks: u32) -> Result<(), Refusal>
        ensures value { result ≡ meaning.answer self.old place.number (Preload ticks) }
        ensures after { self.new ≡ meaning.called self.old place.number (Preload ticks) };

    fn arm(&mut self, place: Place) -> Result<(), Refusal>
        ensures value { result ≡ meaning.answer self.old place.number Arm }
        ensures after { self.new ≡ meaning.called self.old place.number Arm };

    fn kick(&mut self, place: Place) -> Result<(), Refusal>
        ensures value { result ≡ meaning.answer self.old place.number Kick }
        ensures after { self.new ≡ meaning.called self.old place.number Kick };

    // What every kind of station owes.
    ghost rules: { Rules meaning };
}
