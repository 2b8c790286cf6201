ghost use Rattle.std.specs.Prelude.{◌≡◌};
ghost use Rattle.outputs.specs.Modes.{named, mode_bits, steps, pairs, modes_of, bits_of, modes_allowed};

use bits::number::Code;
use std::array;

// The range of an output.
#[derive(Clone, Copy)]
pub enum Mode {
    // 0 to 10 V
    Unipolar,
    // -5 to 5 V
    FiveVolts,
    // -10 to 10 V
    TenVolts,
}

// A number that names no mode.
#[derive(Clone, Copy, Debug, PartialEq, Eq)]
pub struct UnknownMode(pub u32);

impl TryFrom<u32> for Mode {
    type Error = UnknownMode;

    ghost try_from_gives = { λ bits result. result ≡ named bits };

    fn try_from(bits: u32) -> Result<Mode, UnknownMode> {
        match bits {
            0 => Ok(Mode::Unipolar),
            1 => Ok(Mode::FiveVolts),
            2 => Ok(Mode::TenVolts),
            _ => Err(UnknownMode(bits)),
        }
    }
}

// The two bits that name a mode.
impl From<Mode> for u32 {
    ghost from_gives = { λ mode result. result ≡ mode_bits mode };

    fn from(mode: Mode) -> u32 {
        match mode {
            Mode::Unipolar => 0,
            Mode::FiveVolts => 1,
            Mode::TenVolts => 2,
        }
    }
}

impl Mode {
    // What a code puts out, in steps of 10/4096 V.
    pub fn steps(self, code: Code) -> i32
        ensures { result ≡ steps self code.value }
    {
        let value = code.value as i32;
        match self {
            Mode::Unipolar => value,
            Mode::FiveVolts => value - 2048,
            Mode::TenVolts => 2 * (value - 2048),
        }
    }
}

// Two bits of a word for each of eight channels, those of channel c in bits 2c and 2c + 1.
fn pairs(value: u32) -> [u32; 8]
    ensures { result ≡ pairs value }
{
    array::from_fn(|channel| (value >> 2 * channel) % 4)
}

// The modes of eight channels, that of channel c in bits 2c and 2c + 1. 3 names none: a write is tested by `modes_allowed`
// before it is made, since a board after a write has to be there for every word.
pub fn modes_of(value: u32) -> [Mode; 8]
    ensures { result ≡ modes_of value }
{
    pairs(value).map(|bits| Mode::try_from(bits).unwrap_or(Mode::TenVolts))
}

// The word that tells the modes of eight channels.
pub fn bits_of(modes: [Mode; 8]) -> u32
    ensures { result ≡ bits_of modes }
{
    modes
        .iter()
        .rev()
        .fold(0, |word, &mode| word << 2 | u32::from(mode))
}

// Whether a word names a mode for each of eight channels and has no other bit.
pub fn modes_allowed(value: u32) -> bool
    ensures { result ≡ modes_allowed value }
{
    let pairs = pairs(value);
    value < 0x1_0000 && pairs.iter().all(|&bits| Mode::try_from(bits).is_ok())
}
