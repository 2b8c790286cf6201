// What was carried out and what was refused.
use crate::units::Microseconds;
use bench::refusal::Refusal as Turned;
use replay::refusal::Refusal;
use std::alloc::AllocError;
use std::fmt;
use std::fmt::Write;

// How many lines were carried out and refused, and how many ticks they made.
pub fn write_tally(
    out: &mut String,
    outcomes: &[Result<u32, Refusal>],
    ticks: u64,
) -> Result<(), AllocError> {
    let carried = outcomes.iter().filter(|outcome| outcome.is_ok()).count();
    let refused = outcomes.iter().filter(|outcome| outcome.is_err()).count();
    let time = Microseconds::of_ticks(u128::from(ticks));
    writeln!(out)?;
    writeln!(out, "lines carried out  {carried:>10}")?;
    writeln!(out, "lines refused      {refused:>10}")?;
    writeln!(out, "ticks made         {ticks:>10}  ({time} us)")
}

// The part of its line that a refusal names.
fn write_part(out: &mut String, refusal: Refusal) -> Result<(), AllocError> {
    match refusal {
        Refusal::Line(why) => write!(out, "column {}", why.column()),
        Refusal::Bench(Turned::TooMany) => write!(out, "its count"),
        Refusal::Bench(why) => write!(out, "place {}", why.place()),
    }
}

// Each refusal with its line, its column or place, its number and its meaning.
pub fn write_refusals(out: &mut String, outcomes: &[Result<u32, Refusal>]) -> fmt::Result {
    for (line, outcome) in (1..=outcomes.len()).zip(outcomes) {
        if let Err(refusal) = *outcome {
            write!(out, "line {line}, ")?;
            write_part(out, refusal)?;
            let number = refusal.coded().number;
            write!(out, ": refusal {number}, {refusal}")?;
            if let Refusal::Bench(Turned::NoPlace { .. }) = refusal {
                write!(out, ": it has 0, 1 and 2")?;
            }
            writeln!(out)?;
        }
    }
    Ok(())
}
