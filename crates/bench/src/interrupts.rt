ghost use Rattle.std.specs.Prelude.{◌≡◌};
ghost use Rattle.bench.specs.declared.request.Request.TheVariants.{Take, Acknowledge};
ghost use Rattle.bench.specs.Calls.{reply, performed, ticketed, handed};

use crate::Bench;
use crate::refusal::{Back, Refusal};
use crate::ticket::Ticket;
use station::Station;

impl<S: Station> Bench<S> {
    // Takes what is pending at a place, and opens its service.
    pub fn take(&mut self, place: u8) -> Result<Ticket, Refusal>
        ensures value { result ≡ ticketed place (reply S.Station.meaning self.old (Take place)) }
        ensures after { self.new ≡ performed S.Station.meaning self.old (Take place) }
    {
        let at = self.at(place)?;
        if self.services.at(at).is_some() {
            return Err(Refusal::ServiceOpen { place });
        }
        let bits = self.chain.facts(at).pending;
        if bits == 0 {
            return Err(Refusal::NothingPending { place });
        }
        self.services.put(at, Some(bits));
        Ok(Ticket::new(place, bits))
    }

    // Spends a ticket: its bits go to the place, and the service there ends.
    pub fn acknowledge(&mut self, ticket: Ticket) -> Result<(), Back<Ticket>>
        ensures value { result ≡ handed ticket tt (reply S.Station.meaning self.old (Acknowledge ticket.place ticket.bits)) }
        ensures after { self.new ≡ performed S.Station.meaning self.old (Acknowledge ticket.place ticket.bits) }
    {
        let place = ticket.place();
        let bits = ticket.bits();
        // No `?`: a refusal hands the ticket back, and a closure that does so would take it in any case.
        let at = match self.at(place) {
            Ok(at) => at,
            Err(why) => return Err(Back { why, given: ticket }),
        };
        if !self.services.has(at, bits) {
            let why = Refusal::NoService { place };
            return Err(Back { why, given: ticket });
        }
        ticket.spend();
        self.chain.acknowledge(at, bits);
        self.services.put(at, None);
        Ok(())
    }
}
