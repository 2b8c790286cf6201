ghost use Rattle.std.specs.Prelude.{◌≡◌};
ghost use Rattle.bench.specs.declared.request.Request.TheVariants.{Read, Write, Wire, Volts};
ghost use Rattle.bench.specs.Calls.{told, reply, performed};

use crate::Bench;
use crate::refusal::Refusal;
use station::Station;
use station::refusal::Refusal as Turned;

// A station's answer, as the bench gives it on.
pub(crate) fn told<T>(place: u8, answer: Result<T, Turned>) -> Result<T, Refusal>
    ensures { result ≡ told place answer }
{
    answer.map_err(|why| Refusal::Station { place, why })
}

// A call asks for its place and hands the answer on. These two lines stand in each: a function that took the station's
// call as a closure would be as long where it is used, and its contract longer.
impl<S: Station> Bench<S> {
    // Reads a register.
    pub fn read(&mut self, place: u8, register: u8) -> Result<u32, Refusal>
        ensures value { result ≡ reply S.Station.meaning self.old (Read place register) }
        ensures after { self.new ≡ performed S.Station.meaning self.old (Read place register) }
    {
        let at = self.at(place)?;
        told(place, self.chain.read(at, register))
    }

    // Writes a register.
    pub fn write(&mut self, place: u8, register: u8, value: u32) -> Result<(), Refusal>
        ensures value { result ≡ reply S.Station.meaning self.old (Write place register value) }
        ensures after { self.new ≡ performed S.Station.meaning self.old (Write place register value) }
    {
        let at = self.at(place)?;
        told(place, self.chain.write(at, register, value))
    }

    // Sets the level of an input wire.
    pub fn wire(&mut self, place: u8, wire: u8, level: u32) -> Result<(), Refusal>
        ensures value { result ≡ reply S.Station.meaning self.old (Wire place wire level) }
        ensures after { self.new ≡ performed S.Station.meaning self.old (Wire place wire level) }
    {
        let at = self.at(place)?;
        told(place, self.chain.wire(at, wire, level))
    }

    // What an output channel puts out, in steps of 10/4096 V.
    pub fn volts(&self, place: u8, channel: u8) -> Result<i32, Refusal>
        ensures { result ≡ reply S.Station.meaning self.now (Volts place channel) }
    {
        let at = self.at(place)?;
        told(place, self.chain.volts(at, channel))
    }
}
