// Ticks as time. A tick is 30 ns, so that a hundred ticks are 3 us.
ghost use Rattle.std.specs.Prelude.{◌≡◌, ◌+◌, ◌*◌, ◌<◌};

use std::fmt;

// A time in microseconds: whole ones, and hundredths.
#[derive(Clone, Copy)]
pub struct Microseconds {
    pub whole: u128,
    pub hundredths: u128,
}

impl Microseconds {
    pub fn of_ticks(ticks: u128) -> Microseconds
        ensures same { result.whole * 100 + result.hundredths ≡ 3 * ticks }
        ensures part { result.hundredths < 100 }
    {
        let rest = ticks % 100 * 3;
        Microseconds {
            whole: ticks / 100 * 3 + rest / 100,
            hundredths: rest % 100,
        }
    }
}

impl fmt::Display for Microseconds {
    fn fmt<W: fmt::Write>(&self, f: &mut fmt::Formatter<W>) -> fmt::Result {
        let whole = self.whole;
        let hundredths = self.hundredths;
        // At most 39 digits, the point, and two digits.
        let text = fmt::InlineText::<42>::of(format_args!("{whole}.{hundredths:02}"));
        f.pad(text.as_str())
    }
}
