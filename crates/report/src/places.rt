// A table with a row for each place, and what the places put out.
use crate::kinds::{KINDS, Kind};
use crate::units::Microseconds;
use account::row::{Rest, Row};
use account::watch::Watch;
use station::Station;
use std::alloc::AllocError;
use std::fmt;
use std::fmt::Write;

// Why a place came to rest, as far as it can see. The stop wire of a card is its fuse. A table: joined parts would have to be
// gathered before they can be padded to the width of the column.
fn why(kind: Kind, rest: Rest) -> &'static str {
    match (rest.due, rest.stop, rest.line, kind) {
        (false, false, false, _) => "a call",
        (false, false, true, _) => "the line",
        (false, true, false, Kind::Card) => "its fuse",
        (false, true, false, Kind::Drive) => "its stop wire",
        (false, true, true, Kind::Card) => "its fuse, the line",
        (false, true, true, Kind::Drive) => "its stop wire, the line",
        (true, false, false, _) => "its watchdog",
        (true, false, true, _) => "its watchdog, the line",
        (true, true, false, _) => "its watchdog, its fuse",
        (true, true, true, _) => "its watchdog, its fuse, the line",
    }
}

// Whether the place is held, since when, and why.
fn write_rest(out: &mut String, kind: Kind, rest: Option<Rest>) -> Result<(), AllocError> {
    let Some(rest) = rest else {
        return write!(out, "{:<4}  {:>10}  {:>12}  {:<32}", "no", "-", "-", "-");
    };
    let tick = rest.tick;
    let time = Microseconds::of_ticks(u128::from(tick));
    let cause = why(kind, rest);
    write!(out, "yes   {tick:>10}  {time:>12}  {cause:<32}")
}

fn write_due(out: &mut String, row: Row) -> Result<(), AllocError> {
    match row.facts.due {
        Some(ticks) => writeln!(out, "  {ticks:>10}"),
        None => writeln!(out, "  {:>10}", "-"),
    }
}

// A row for each place: its kind, whether it is held and since when, and in how many ticks it is due.
pub fn write_places<S: Station>(out: &mut String, watch: &Watch<S>) -> fmt::Result {
    writeln!(out)?;
    writeln!(
        out,
        "place  kind   held  since tick            us  why                                      due"
    )?;
    for (place, (row, kind)) in watch.rows.iter().zip(KINDS).enumerate() {
        write!(out, "{place:>5}  {kind:<5}  ")?;
        write_rest(out, kind, row.rest)?;
        write_due(out, *row)?;
    }
    write_outputs(out, watch)
}

// What each channel of each place puts out.
fn write_outputs<S: Station>(out: &mut String, watch: &Watch<S>) -> fmt::Result {
    writeln!(out)?;
    writeln!(out, "Outputs in steps of 10/4096 V, by channel")?;
    for (place, kind) in (0..watch.bench.places()).zip(KINDS) {
        write!(out, "{place:>5}  {kind:<5}")?;
        for channel in 0..8 {
            if let Ok(steps) = watch.bench.volts(place, channel) {
                write!(out, "  {steps:>6}")?;
            }
        }
        writeln!(out)?;
    }
    Ok(())
}
