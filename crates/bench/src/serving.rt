ghost use Rattle.std.specs.Prelude.{◌≡◌};
ghost use Rattle.bench.specs.Services.{no_service, service, same_service, with_service};

use crate::services::Services;
use station::place::Place;

impl Services {
    // No service is open.
    #[tactic(auto, using(crate::proofs::Same::same_services), unfolding(crate::specs::Services::no_service))]
    pub(crate) fn none() -> Services
        ensures { result ≡ no_service }
    {
        Services { each: [None; 16] }
    }

    // The bits of the service that is open at a place.
    #[tactic(auto, unfolding(crate::specs::Services::service))]
    pub(crate) fn at(&self, place: Place) -> Option<u32>
        ensures { result ≡ service self.now place.number }
    {
        self.each[usize::from(place.number)]
    }

    // Whether a service is open at a place with just these bits.
    pub(crate) fn has(&self, place: Place, bits: u32) -> bool
        ensures { result ≡ same_service (service self.now place.number) bits }
    {
        self.at(place) == Some(bits)
    }

    // Opens or ends the service of a place.
    #[tactic(auto, using(crate::proofs::Same::same_services), unfolding(crate::specs::Services::with_service))]
    pub(crate) fn put(&mut self, place: Place, service: Option<u32>)
        ensures { self.new ≡ with_service self.old place.number service }
    {
        self.each[usize::from(place.number)] = service;
    }
}
