ghost use Rattle.std.specs.Prelude.{◌≡◌, ◌%◌};
ghost use Rattle.outputs.specs.Channels.{idle, output, silent, updated, latched, moded, modes, volts, at_rest};

use crate::mode::{Mode, modes_of};
use bits::number::Code;

// An output: the code that is latched, the code that is out, and the mode.
#[derive(Clone, Copy)]
pub struct Channel {
    pub latch: Code,
    pub code: Code,
    pub mode: Mode,
}

impl Channel {
    // Codes 0 in mode 0.
    fn idle() -> Channel
        ensures { result ≡ idle }
    {
        Channel {
            latch: Code::of(0),
            code: Code::of(0),
            mode: Mode::Unipolar,
        }
    }

    // What it puts out, in steps of 10/4096 V.
    fn steps(self) -> i32
        ensures { result ≡ output self }
    {
        self.mode.steps(self.code)
    }
}

// The outputs of a card.
#[derive(Clone, Copy)]
pub struct Outputs {
    pub channels: [Channel; 8],
}

impl Outputs {
    // All channels idle.
    pub fn silent() -> Outputs
        ensures { result ≡ silent }
    {
        Outputs {
            channels: [Channel::idle(); 8],
        }
    }

    // The latched codes go out, all at once.
    pub fn updated(self) -> Outputs
        ensures { result ≡ updated self }
    {
        Outputs {
            channels: self.channels.map(|channel| Channel {
                code: channel.latch,
                ..channel
            }),
        }
    }

    // Latches the codes of channels n and 4 + n, n modulo 4.
    pub fn latched(self, n: u8, value: u32) -> Outputs
        ensures { result ≡ latched self (n % 4) value }
    {
        let low = usize::from(n % 4);
        let mut channels = self.channels;
        channels[low].latch = Code::of(value);
        channels[4 + low].latch = Code::of(value / 0x1_0000);
        Outputs { channels }
    }

    // The modes of all channels, that of channel c from bits 2c and 2c + 1.
    pub fn moded(self, value: u32) -> Outputs
        ensures { result ≡ moded self value }
    {
        let modes = modes_of(value);
        let mut channels = self.channels;
        // By index: over a `zip` with the modes, and by `array::from_fn`, the proof did not close.
        for (n, channel) in channels.iter_mut().enumerate() {
            channel.mode = modes[n];
        }
        Outputs { channels }
    }

    // The modes of all channels.
    pub fn modes(self) -> [Mode; 8]
        ensures { result ≡ modes self }
    {
        self.channels.map(|channel| channel.mode)
    }

    // What a channel, modulo 8, puts out in steps of 10/4096 V.
    pub fn volts(self, channel: u8) -> i32
        ensures { result ≡ volts self (channel % 8) }
    {
        self.channels[usize::from(channel % 8)].steps()
    }

    // Whether all channels put out nothing.
    pub fn at_rest(self) -> bool
        ensures { result ≡ at_rest self }
    {
        self.channels.iter().all(|channel| channel.steps() == 0)
    }
}
