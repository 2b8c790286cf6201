ghost use Rattle.std.specs.Prelude.{◌≡◌, Some, codes};
ghost use Rattle.station.specs.Numbers.{number};
ghost use Rattle.station.specs.declared.refusal.Refusal.TheVariants.{NoSuch, WriteOnly, ReadOnly, NotAllowed};

use std::error::Error;
use std::fmt;

// Why a station turns a call down.
#[derive(Clone, Copy, PartialEq, Eq, Debug)]
pub enum Refusal {
    // There is no such register, wire or channel.
    NoSuch,
    // A read of what can only be written.
    WriteOnly,
    // A write of what can only be read.
    ReadOnly,
    // A reserved bit, or a value that is too wide or not allowed there.
    NotAllowed,
}

impl Refusal {
    // The number by which the refusal is known: a method, whose name says what `u8::from` would not.
    pub fn number(self) -> u8
        ensures { result ≡ number self }
    {
        match self {
            Refusal::NoSuch => 2,
            Refusal::WriteOnly => 3,
            Refusal::ReadOnly => 4,
            Refusal::NotAllowed => 5,
        }
    }
}

// What the refusal means, for people.
impl fmt::Display for Refusal {
    ghost output = { elim [
      | NoSuch ↦ Some (codes "there is no such register, wire or channel at that place")
      | WriteOnly ↦ Some (codes "that register can only be written")
      | ReadOnly ↦ Some (codes "that register can only be read")
      | NotAllowed ↦ Some (codes "a reserved bit is set, or the value is too wide")
    ] };

    fn fmt<W: fmt::Write>(&self, f: &mut fmt::Formatter<W>) -> fmt::Result {
        f.write_str(match self {
            Refusal::NoSuch => "there is no such register, wire or channel at that place",
            Refusal::WriteOnly => "that register can only be written",
            Refusal::ReadOnly => "that register can only be read",
            Refusal::NotAllowed => "a reserved bit is set, or the value is too wide",
        })
    }
}

impl Error for Refusal {}
