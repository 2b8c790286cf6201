// The kinds of the stations.
use std::fmt;

#[derive(Clone, Copy)]
pub enum Kind {
    Card,
    Drive,
}

// Those of the chain of a lift machine, by place.
pub const KINDS: [Kind; 3] = [Kind::Card, Kind::Drive, Kind::Card];

impl fmt::Display for Kind {
    fn fmt<W: fmt::Write>(&self, f: &mut fmt::Formatter<W>) -> fmt::Result {
        f.pad(match self {
            Kind::Card => "card",
            Kind::Drive => "drive",
        })
    }
}
