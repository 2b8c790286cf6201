ghost use Rattle.std.specs.Prelude.{◌≡◌};
ghost use Rattle.lines.specs.Records.{record_of};
ghost use Rattle.replay.specs.Refusals.{layer, coded, answer_coded};
ghost use Rattle.replay.specs.declared.refusal.Refusal.TheVariants.{Line, Bench};

use bench::refusal::Refusal as Turned;
use lines::malformed::Malformed;
use lines::record::{Coded, Layer, record};
use std::error::Error;
use std::fmt;

// Why a line of a trace is refused.
#[derive(Clone, Copy, PartialEq, Eq, Debug)]
pub enum Refusal {
    // It is no command.
    Line(Malformed),
    // The bench turned its command down.
    Bench(Turned),
}

impl Refusal {
    // The layer that refused.
    pub fn layer(self) -> Layer
        ensures { result ≡ layer self }
    {
        match self {
            Refusal::Line(_) => Layer::Line,
            Refusal::Bench(Turned::Station { .. }) => Layer::Station,
            Refusal::Bench(_) => Layer::Bench,
        }
    }

    // The refusal as a record carries it.
    pub fn coded(self) -> Coded
        ensures { result ≡ coded self }
    {
        let (number, at) = match self {
            Refusal::Line(malformed) => (malformed.number(), malformed.column()),
            Refusal::Bench(refusal) => (refusal.number(), u16::from(refusal.place())),
        };
        Coded {
            number,
            layer: u8::from(self.layer()),
            at,
        }
    }
}

// The record of what came of a line.
pub fn recorded(outcome: Result<u32, Refusal>) -> [u8; 11]
    ensures { result ≡ record_of (answer_coded outcome) }
{
    record(outcome.map_err(Refusal::coded))
}

impl From<Malformed> for Refusal {
    ghost from_gives = { λ why refusal. refusal ≡ Line why };

    fn from(why: Malformed) -> Refusal {
        Refusal::Line(why)
    }
}

impl From<Turned> for Refusal {
    ghost from_gives = { λ why refusal. refusal ≡ Bench why };

    fn from(why: Turned) -> Refusal {
        Refusal::Bench(why)
    }
}

// What the refusal means, for people.
impl fmt::Display for Refusal {
    ghost output = { elim [
      | Line why ↦ ⟦<Malformed as fmt::Display>⟧.output why
      | Bench why ↦ ⟦<Turned as fmt::Display>⟧.output why
    ] };

    fn fmt<W: fmt::Write>(&self, f: &mut fmt::Formatter<W>) -> fmt::Result {
        match self {
            Refusal::Line(malformed) => write!(f, "{malformed}"),
            Refusal::Bench(refusal) => write!(f, "{refusal}"),
        }
    }
}

impl Error for Refusal {}
