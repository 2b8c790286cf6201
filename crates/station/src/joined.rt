ghost use Rattle.station.specs.Members.{Lies};
ghost use Rattle.station.specs.Pair.{pair};
ghost use Rattle.station.specs.Pairs.{pair_rules};

use crate::Station;
use crate::facts::Facts;
use crate::member::Member;
use crate::place::Place;
use crate::refusal::Refusal;

// Two members one behind the other, which are again a member. What the first sends on is what the
// second hears.
#[derive(Drop)]
pub struct Joined<A, B> {
    pub first: A,
    pub second: B,
}

impl<A: Station, B: Station> Joined<A, B> {
    // The member that a place of the pair belongs to. The places of the second follow those of the first.
    fn member(&self, place: Place) -> Member
        ensures { Lies (A.Station.meaning.size self.now.first) place.number result }
    {
        let here = self.first.places();
        if place.number < here {
            Member::First(place)
        } else {
            Member::Second(place.after(here))
        }
    }
}

impl<A: Station, B: Station> Station for Joined<A, B> {
    ghost meaning = { pair A.Station.meaning B.Station.meaning };

    ghost rules = { pair_rules _ _ A.Station.rules B.Station.rules };

    fn places(&self) -> u8 {
        (self.first.places() + self.second.places()).min(16)
    }

    fn facts(&self, place: Place) -> Facts {
        match self.member(place) {
            Member::First(at) => self.first.facts(at),
            Member::Second(at) => self.second.facts(at),
        }
    }

    fn sends(&self) -> bool {
        self.second.sends()
    }

    fn tick(&mut self, level: bool) {
        // What the first sends is taken before it ticks.
        let between = self.first.sends();
        self.first.tick(level);
        self.second.tick(between);
    }

    fn read(&mut self, place: Place, register: u8) -> Result<u32, Refusal> {
        match self.member(place) {
            Member::First(at) => self.first.read(at, register),
            Member::Second(at) => self.second.read(at, register),
        }
    }

    fn write(&mut self, place: Place, register: u8, value: u32) -> Result<(), Refusal> {
        match self.member(place) {
            Member::First(at) => self.first.write(at, register, value),
            Member::Second(at) => self.second.write(at, register, value),
        }
    }

    fn wire(&mut self, place: Place, wire: u8, level: u32) -> Result<(), Refusal> {
        match self.member(place) {
            Member::First(at) => self.first.wire(at, wire, level),
            Member::Second(at) => self.second.wire(at, wire, level),
        }
    }

    fn volts(&self, place: Place, channel: u8) -> Result<i32, Refusal> {
        match self.member(place) {
            Member::First(at) => self.first.volts(at, channel),
            Member::Second(at) => self.second.volts(at, channel),
        }
    }

    fn acknowledge(&mut self, place: Place, bits: u32) {
        match self.member(place) {
            Member::First(at) => self.first.acknowledge(at, bits),
            Member::Second(at) => self.second.acknowledge(at, bits),
        }
    }

    fn preload(&mut self, place: Place, ticks: u32) -> Result<(), Refusal> {
        match self.member(place) {
            Member::First(at) => self.first.preload(at, ticks),
            Member::Second(at) => self.second.preload(at, ticks),
        }
    }

    fn arm(&mut self, place: Place) -> Result<(), Refusal> {
        match self.member(place) {
            Member::First(at) => self.first.arm(at),
            Member::Second(at) => self.second.arm(at),
        }
    }

    fn kick(&mut self, place: Place) -> Result<(), Refusal> {
        match self.member(place) {
            Member::First(at) => self.first.kick(at),
            Member::Second(at) => self.second.kick(at),
        }
    }
}
