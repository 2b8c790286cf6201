ghost use Rattle.std.specs.Prelude.{◌≡◌, ◌%◌};
ghost use Rattle.board.specs.Writes.{status_cleared, controlled, guarded, with_preset, written};

use crate::parts::Board;
use crate::register::Register;
use bits::number::Count;
use bits::words::bit;
use encoder::eight::{clear_all, command_all, enable_all};
use guards::watchdog::Control;

impl Board {
    // Interrupts are taken back where a 1 stands.
    fn clear_status(&mut self, value: u32)
        ensures { self.new ≡ status_cleared self.old value }
    {
        clear_all(&mut self.encoders, value);
        self.low.chip = self.low.chip.cleared(bit(value, 16), bit(value, 18));
        self.high.chip = self.high.chip.cleared(bit(value, 17), bit(value, 19));
        self.watchdog = self.watchdog.cleared(bit(value, 21));
        self.sense = self.sense.cleared(bit(value, 22));
        self.fuse = self.fuse.cleared(bit(value, 23));
    }

    // The board with the interrupts taken back where a 1 stands.
    pub fn status_cleared(mut self, value: u32) -> Board
        ensures { result ≡ status_cleared self value }
    {
        self.clear_status(value);
        self
    }

    // The control register: its bits are stored, then the conversions start that are asked for.
    fn control_by(&mut self, value: u32)
        ensures { self.new ≡ controlled self.old value }
    {
        let select_low = (value / 0x100 % 16) as u8;
        let select_high = (value / 0x1_0000 % 16) as u8;
        self.sense = self.sense.with_active(bit(value, 0));
        self.low = self.low.controlled(select_low, bit(value, 6));
        self.high = self.high.controlled(select_high, bit(value, 7));
    }

    // The watchdog's control register.
    pub fn guarded(mut self, value: u32) -> Board
        ensures { result ≡ guarded self value }
    {
        self.watchdog = self.watchdog.controlled(Control {
            enabled: bit(value, 8),
            load: bit(value, 12),
            active: bit(value, 14),
            selected: bit(value, 15),
        });
        self
    }

    // The preset of an encoder, modulo 8.
    fn put_preset(&mut self, number: u8, value: u32)
        ensures { self.new ≡ with_preset self.old (number % 8) value }
    {
        let n = usize::from(number % 8);
        self.encoders[n] = self.encoders[n].with_preset(Count::of(value));
    }

    // The board after an allowed write.
    pub fn written(mut self, register: Register, value: u32) -> Board
        ensures { result ≡ written self register value }
    {
        match register {
            Register::InterruptEnable => self.enabled = value,
            Register::InterruptStatus => self.clear_status(value),
            Register::Control => self.control_by(value),
            Register::Preload => self.watchdog = self.watchdog.with_preload(value),
            Register::WatchdogControl => self = self.guarded(value),
            Register::Digital => self.port = self.port.with_latch(value),
            Register::Direction => self.port = self.port.with_direction(value),
            Register::Codes { pair } => self.outputs = self.outputs.latched(pair, value),
            Register::Update => self.outputs = self.outputs.updated(),
            Register::Modes => self.outputs = self.outputs.moded(value),
            Register::EncoderModes => enable_all(&mut self.encoders, value),
            Register::EncoderCommand => command_all(&mut self.encoders, value),
            Register::Encoder { number } => self.put_preset(number, value),
            // What can only be read.
            Register::Status | Register::Results => {}
        }
        self
    }
}
