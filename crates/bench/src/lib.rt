// The bench: one chain of stations, and the calls that reach it.
#![tactic(auto)]

ghost use Rattle.std.specs.Prelude.{◌≡◌, true, false, MatchResult, nat_lt};
ghost use Rattle.bench.specs.declared.refusal.Refusal.TheVariants.{NoPlace};
ghost use Rattle.falls.specs.Forecasts.{Foretells};
ghost use Rattle.falls.specs.Law.{Law};
ghost use Rattle.bench.specs.Calls.{fresh, places, looked, foreseen};

use falls::forecast::Forecast;
use falls::foretell;
use refusal::Refusal;
use services::Services;
use station::Station;
use station::facts::Facts;
use station::place::Place;

pub mod access;
pub mod arming;
pub mod interrupts;
pub mod refusal;
pub mod request;
pub mod services;
pub mod serving;
pub mod ticket;
pub mod ticking;

// The most ticks that one call makes.
pub const MOST: u32 = 1_000_000;

// A chain of stations on the bench, and the services that are open.
#[derive(Drop)]
pub struct Bench<S> {
    chain: S,
    services: Services,
}

impl<S: Station> Bench<S> {
    // A new bench takes its stations as they stand.
    pub fn new(chain: S) -> Bench<S>
        ensures { result ≡ fresh chain }
    {
        let services = Services::none();
        Bench { chain, services }
    }

    // The number of places that have an address.
    pub fn places(&self) -> u8
        ensures { result ≡ places S.Station.meaning self.now }
    {
        self.chain.places()
    }

    // The place of that number, if it is in the chain and has an address.
    fn at(&self, place: u8) -> Result<Place, Refusal>
        ensures { MatchResult result (λ p. (p.number ≡ place) × (nat_lt place (places S.Station.meaning self.now) ≡ true)) (λ e. (e ≡ NoPlace place) × (nat_lt place (places S.Station.meaning self.now) ≡ false)) }
    {
        if place < self.chain.places() {
            Ok(Place { number: place })
        } else {
            Err(Refusal::NoPlace { place })
        }
    }

    // What there is to see of a place, if it is in the chain and has an address.
    pub fn facts(&self, place: u8) -> Result<Facts, Refusal>
        ensures { result ≡ looked S.Station.meaning self.now place }
    {
        let at = self.at(place)?;
        Ok(self.chain.facts(at))
    }

    // What is to become of a place, if from now on no wire changes, no guard call is made and the
    // outside line stays at a level. The law of falls stands behind the answer.
    pub fn foretell(&self, level: bool, place: u8) -> Result<Forecast, Refusal>
        ensures value { result ≡ foreseen S.Station.meaning self.now level place }
        ensures foretells { Foretells S.Station.meaning self.now.chain level }
        ensures law { Law S.Station.meaning }
    {
        let at = self.at(place)?;
        Ok(foretell(&self.chain, level, at))
    }
}
