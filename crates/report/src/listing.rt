// The trace itself, each line with its record.
use lines::cutting::Lines;
use replay::refusal::{Refusal, recorded};
use std::fmt;
use std::fmt::Write;

// A line as it can be shown: a byte that is no printable character is a dot.
fn write_shown(out: &mut String, line: &[u8]) -> fmt::Result {
    for byte in line {
        let shown = match *byte {
            b' '..=b'~' => char::from(*byte),
            _ => '.',
        };
        out.write_char(shown)?;
    }
    Ok(())
}

fn write_record(out: &mut String, outcome: Result<u32, Refusal>) -> fmt::Result {
    for byte in &recorded(outcome)[0..10] {
        out.write_char(char::from(*byte))?;
    }
    Ok(())
}

// Each line of the trace, numbered from 1, and what it answers.
pub fn write_trace(
    out: &mut String,
    trace: &[u8],
    outcomes: &[Result<u32, Refusal>],
) -> fmt::Result {
    writeln!(out, "  line  answer      trace")?;
    for (number, (line, outcome)) in (1..=outcomes.len()).zip(Lines::of(trace).zip(outcomes)) {
        write!(out, "{number:>6}  ")?;
        write_record(out, *outcome)?;
        write!(out, "  ")?;
        write_shown(out, line)?;
        writeln!(out)?;
    }
    Ok(())
}
