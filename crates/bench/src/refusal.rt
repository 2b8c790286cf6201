ghost use Rattle.std.specs.Prelude.{◌≡◌, Some, codes};
ghost use Rattle.bench.specs.Refusals.{number, detail};
ghost use Rattle.bench.specs.declared.refusal.Refusal.TheVariants.{NoPlace, Station, TooMany, NothingPending, ServiceOpen, NoService};

use station::refusal::Refusal as Turned;
use std::error::Error;
use std::fmt;

// Why the bench turns a call down.
#[derive(Clone, Copy, PartialEq, Eq, Debug)]
pub enum Refusal {
    // The place is not in the chain, or has no address.
    NoPlace { place: u8 },
    // The station at the place turned the call down.
    Station { place: u8, why: Turned },
    // More ticks are asked for than one call makes.
    TooMany,
    // The place has no interrupt pending.
    NothingPending { place: u8 },
    // A service is open at the place.
    ServiceOpen { place: u8 },
    // No service is open at the place with the bits of the ticket.
    NoService { place: u8 },
}

impl Refusal {
    // The number by which the refusal is known: a method, whose name says what `u8::from` would not.
    pub fn number(self) -> u8
        ensures { result ≡ number self }
    {
        match self {
            Refusal::NoPlace { .. } => 1,
            Refusal::Station { why, .. } => why.number(),
            Refusal::TooMany => 6,
            Refusal::NothingPending { .. } => 7,
            Refusal::ServiceOpen { .. } => 8,
            Refusal::NoService { .. } => 9,
        }
    }

    // The place that was asked for, 0 where the call names none.
    pub fn place(self) -> u8
        ensures { result ≡ detail self }
    {
        match self {
            Refusal::NoPlace { place }
            | Refusal::Station { place, .. }
            | Refusal::NothingPending { place }
            | Refusal::ServiceOpen { place }
            | Refusal::NoService { place } => place,
            Refusal::TooMany => 0,
        }
    }
}

// What the refusal means, for people.
impl fmt::Display for Refusal {
    ghost output = { elim [
      | NoPlace place ↦ Some (codes "that place is not in the chain")
      | Station place why ↦ ⟦<Turned as fmt::Display>⟧.output why
      | TooMany ↦ Some (codes "one run makes at most 1000000 ticks (000F4240)")
      | NothingPending place ↦ Some (codes "no interrupt is pending at that place")
      | ServiceOpen place ↦ Some (codes "a service is open at that place already")
      | NoService place ↦ Some (codes "no service is open at that place with the bits of the ticket")
    ] };

    fn fmt<W: fmt::Write>(&self, f: &mut fmt::Formatter<W>) -> fmt::Result {
        match self {
            Refusal::NoPlace { .. } => write!(f, "that place is not in the chain"),
            Refusal::Station { why, .. } => write!(f, "{why}"),
            // The number is written out: through `MOST` the words need a proof by hand, which is no plainer.
            Refusal::TooMany => write!(f, "one run makes at most 1000000 ticks (000F4240)"),
            Refusal::NothingPending { .. } => write!(f, "no interrupt is pending at that place"),
            Refusal::ServiceOpen { .. } => write!(f, "a service is open at that place already"),
            Refusal::NoService { .. } => {
                write!(
                    f,
                    "no service is open at that place with the bits of the ticket"
                )
            }
        }
    }
}

impl Error for Refusal {}

// A call that was turned down, with what its caller had given for it.
#[derive(Drop)]
pub struct Back<T> {
    pub why: Refusal,
    pub given: T,
}
