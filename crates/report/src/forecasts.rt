// When the places that have not come to rest will do so.
use crate::units::Microseconds;
use account::watch::Watch;
use falls::forecast::Forecast;
use station::Station;
use std::alloc::AllocError;
use std::fmt;
use std::fmt::Write;

// The row of a place, where so many ticks have been made.
fn write_forecast(
    out: &mut String,
    place: u8,
    made: u64,
    forecast: Forecast,
) -> Result<(), AllocError> {
    match forecast {
        Forecast::At { tick } => {
            let at = u128::from(made).saturating_add(tick);
            let time = Microseconds::of_ticks(at);
            writeln!(out, "{place:>5}  {at:>13}  {time:>12}  {tick:>14}")
        }
        Forecast::Never => writeln!(out, "{place:>5}  {:>13}  {:>12}  {:>14}", "never", "-", "-"),
        Forecast::Unsettled { place: other } => {
            writeln!(
                out,
                "{place:>5}  cannot be told, since place {other} is not ready"
            )
        }
    }
}

// What the law of falls says of each place that is not held, if the outside line stays as it was
// last told, no wire changes and no guard call is made.
pub fn write_forecasts<S: Station>(out: &mut String, watch: &Watch<S>) -> fmt::Result {
    let high = watch.rows.first().map_or(true, |row| row.heard);
    let level = if high { "high" } else { "low" };
    writeln!(out)?;
    writeln!(
        out,
        "If the outside line stays {level}, no wire changes and no guard call is made:"
    )?;
    writeln!(out, "place  falls at tick            us  ticks from now")?;
    for (place, row) in (0..watch.bench.places()).zip(watch.rows.iter()) {
        if !row.facts.held {
            if let Ok(forecast) = watch.bench.foretell(high, place) {
                write_forecast(out, place, watch.ticks, forecast)?;
            }
        }
    }
    if watch.rows.iter().all(|row| row.facts.held) {
        writeln!(out, "every place is at rest already")?;
    }
    Ok(())
}
