ghost use Rattle.std.specs.Prelude.{◌≡◌, ℕ};
ghost use Rattle.encoder.specs.declared.channel.Encoder.{Encoder};
ghost use Rattle.encoder.specs.Each.{Does, each, with_step, with_command, with_enable, with_cleared, gathered, gathered_by};

use crate::channel::Encoder;
use bits::words::{bit, byte_of};

impl Encoder {
    // A command: bit n latches the count of encoder n, bit 8 + n loads its preset, bit 16 + n clears.
    fn with_command(self, value: u32, n: u8) -> Encoder
        ensures { result ≡ with_command value n self }
    {
        let n = u32::from(n);
        self.commanded(bit(value, n), bit(value, 8 + n), bit(value, 16 + n))
    }

    // Bit 4n tells whether encoder n counts.
    fn with_enable(self, value: u32, n: u8) -> Encoder
        ensures { result ≡ with_enable value n self }
    {
        Encoder {
            enabled: bit(value, 4 * u32::from(n)),
            ..self
        }
    }

    // Bit n clears what tells of a carry or borrow of encoder n, and bit 8 + n what tells of its error.
    fn with_cleared(self, value: u32, n: u8) -> Encoder
        ensures { result ≡ with_cleared value n self }
    {
        let n = u32::from(n);
        Encoder {
            wrapped: self.wrapped & !bit(value, n),
            lost: self.lost & !bit(value, 8 + n),
            ..self
        }
    }
}

// Changes each encoder by its number.
fn each<F: Fn(&mut Encoder, u8)>(encoders: &mut [Encoder; 8], change: F)
    requires { F.IsAlwaysCallable change }
    ensures { (f : ℕ → Encoder → Encoder)
        → Does (F.post change) f → encoders.new ≡ each f 0 encoders.old }
{
    for (n, encoder) in encoders.iter_mut().enumerate() {
        change(encoder, n as u8);
    }
}

// One tick of all encoders. One whose wires have not changed stays as it is.
pub fn step_all(encoders: &mut [Encoder; 8])
    ensures { encoders.new ≡ each with_step 0 encoders.old }
{
    each(
        encoders,
        |encoder, _| if encoder.moved() {
            *encoder = encoder.stepped();
        },
    );
}

// A command to all encoders.
pub fn command_all(encoders: &mut [Encoder; 8], value: u32)
    ensures { encoders.new ≡ each (with_command value) 0 encoders.old }
{
    each(
        encoders,
        |encoder, n| *encoder = encoder.with_command(value, n),
    );
}

// Says of all encoders whether they count.
pub fn enable_all(encoders: &mut [Encoder; 8], value: u32)
    ensures { encoders.new ≡ each (with_enable value) 0 encoders.old }
{
    each(
        encoders,
        |encoder, n| *encoder = encoder.with_enable(value, n),
    );
}

// Clears what all encoders tell, where a 1 stands.
pub fn clear_all(encoders: &mut [Encoder; 8], value: u32)
    ensures { encoders.new ≡ each (with_cleared value) 0 encoders.old }
{
    each(
        encoders,
        |encoder, n| *encoder = encoder.with_cleared(value, n),
    );
}

// The carries and borrows of all encoders, that of encoder 0 in bit 0.
pub fn wraps(encoders: &[Encoder; 8]) -> u8
    ensures { result ≡ gathered (λ e. e.wrapped) encoders.now }
{
    byte_of(encoders.map(|encoder| encoder.wrapped))
}

// The errors of all encoders, that of encoder 0 in bit 0.
pub fn losses(encoders: &[Encoder; 8]) -> u8
    ensures { result ≡ gathered (λ e. e.lost) encoders.now }
{
    byte_of(encoders.map(|encoder| encoder.lost))
}

// Which encoders count, bit 4n for encoder n.
pub fn enables(encoders: &[Encoder; 8]) -> u32
    ensures { result ≡ gathered_by 16 (λ e. e.enabled) encoders.now }
{
    encoders
        .iter()
        .rev()
        .fold(0, |word, encoder| word << 4 | u32::from(encoder.enabled))
}
