// What the encoders of the cards have counted.
use crate::kinds::KINDS;
use bench::Bench;
use station::Station;
use std::fmt;
use std::fmt::Write;

// The register that latches the counts of all encoders, and that of encoder 0.
const LATCH: u8 = 0x14;

const FIRST: u8 = 0x15;

// The counts of all encoders, in hexadecimal. They are latched for this, after the account is made.
pub fn write_counts<S: Station>(out: &mut String, bench: &mut Bench<S>) -> fmt::Result {
    writeln!(out)?;
    writeln!(out, "Encoder counts, hexadecimal")?;
    for (place, kind) in (0..bench.places()).zip(KINDS) {
        if bench.write(place, LATCH, 0xff).is_ok() {
            write!(out, "{place:>5}  {kind:<5}")?;
            for encoder in 0..8 {
                if let Ok(count) = bench.read(place, FIRST + encoder) {
                    write!(out, "  {count:06X}")?;
                }
            }
            writeln!(out)?;
        }
    }
    Ok(())
}
