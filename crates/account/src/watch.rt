ghost use Rattle.std.specs.Prelude.{◌≤◌, vec_len};

use crate::row::Row;
use bench::Bench;

// A bench that is watched: the ticks made since the watch began, and a row for each place.
#[derive(Drop)]
pub struct Watch<S> {
    pub bench: Bench<S>,
    pub ticks: u64,
    pub rows: Vec<Row>,
    ghost few: { vec_len rows ≤ 16 },
}
