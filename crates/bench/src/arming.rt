ghost use Rattle.std.specs.Prelude.{◌≡◌};
ghost use Rattle.bench.specs.declared.request.Request.TheVariants.{Preload, Arm, Kick};
ghost use Rattle.bench.specs.Calls.{reply, performed, handed, advanced};

use crate::Bench;
use crate::access::told;
use crate::refusal::{Back, Refusal};
use station::Station;
use std::marker::PhantomData;

// How far an arming has come.
#[derive(Drop)]
pub struct Begun;

#[derive(Drop)]
pub struct Preloaded;

#[derive(Drop)]
pub struct Armed;

// The arming of the watchdog at a place: begun, then preloaded, then armed. Only an armed one can be kicked.
#[derive(Drop)]
pub struct Arming<Stage> {
    place: u8,
    stage: PhantomData<Stage>,
}

impl Arming<Begun> {
    // Begins an arming. Whether there is such a place is asked by the calls that follow.
    pub fn begin(place: u8) -> Arming<Begun>
        ensures { result ≡ record { place = place; stage = record {} } }
    {
        Arming {
            place,
            stage: PhantomData,
        }
    }
}

impl<Stage> Arming<Stage> {
    pub fn place(&self) -> u8
        ensures { result ≡ self.now.place }
    {
        self.place
    }

    // The next stage, where its call was carried out; else the refusal, and the arming as it was.
    fn after<Next>(self, answer: Result<(), Refusal>) -> Result<Arming<Next>, Back<Arming<Stage>>>
        ensures { result ≡ handed self (advanced self) answer }
    {
        match answer {
            Ok(()) => Ok(Arming {
                place: self.place,
                stage: PhantomData,
            }),
            Err(why) => Err(Back { why, given: self }),
        }
    }
}

// As in `access`, each call that reaches a station asks for its place and hands the answer on.
impl<S: Station> Bench<S> {
    // Puts a number of ticks into the preload.
    pub fn preload(
        &mut self,
        begun: Arming<Begun>,
        ticks: u32,
    ) -> Result<Arming<Preloaded>, Back<Arming<Begun>>>
        ensures value { result ≡ handed begun (advanced begun) (reply S.Station.meaning self.old (Preload begun.place ticks)) }
        ensures after { self.new ≡ performed S.Station.meaning self.old (Preload begun.place ticks) }
    {
        let answer = self.preload_at(begun.place, ticks);
        begun.after(answer)
    }

    fn preload_at(&mut self, place: u8, ticks: u32) -> Result<(), Refusal>
        ensures value { result ≡ reply S.Station.meaning self.old (Preload place ticks) }
        ensures after { self.new ≡ performed S.Station.meaning self.old (Preload place ticks) }
    {
        let at = self.at(place)?;
        told(place, self.chain.preload(at, ticks))
    }

    // Enables the watchdog, loads it, and lets its rise hold the place and tell the line.
    pub fn arm(
        &mut self,
        preloaded: Arming<Preloaded>,
    ) -> Result<Arming<Armed>, Back<Arming<Preloaded>>>
        ensures value { result ≡ handed preloaded (advanced preloaded) (reply S.Station.meaning self.old (Arm preloaded.place)) }
        ensures after { self.new ≡ performed S.Station.meaning self.old (Arm preloaded.place) }
    {
        let answer = self.arm_at(preloaded.place);
        preloaded.after(answer)
    }

    fn arm_at(&mut self, place: u8) -> Result<(), Refusal>
        ensures value { result ≡ reply S.Station.meaning self.old (Arm place) }
        ensures after { self.new ≡ performed S.Station.meaning self.old (Arm place) }
    {
        let at = self.at(place)?;
        told(place, self.chain.arm(at))
    }

    // Loads an armed watchdog anew, as arming does.
    pub fn kick(&mut self, armed: Arming<Armed>) -> Result<Arming<Armed>, Back<Arming<Armed>>>
        ensures value { result ≡ handed armed (advanced armed) (reply S.Station.meaning self.old (Kick armed.place)) }
        ensures after { self.new ≡ performed S.Station.meaning self.old (Kick armed.place) }
    {
        let answer = self.kick_at(armed.place);
        armed.after(answer)
    }

    fn kick_at(&mut self, place: u8) -> Result<(), Refusal>
        ensures value { result ≡ reply S.Station.meaning self.old (Kick place) }
        ensures after { self.new ≡ performed S.Station.meaning self.old (Kick place) }
    {
        let at = self.at(place)?;
        told(place, self.chain.kick(at))
    }
}
