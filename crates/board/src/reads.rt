ghost use Rattle.std.specs.Prelude.{◌≡◌, ◌%◌, ◌<◌};
ghost use Rattle.board.specs.Reads.{is_idle, chip_bits, interrupts, control, status, guard, codes_at, preset_latch, results, fetched, after_read};

use crate::parts::Board;
use crate::register::Register;
use converter::chip::Phase;
use encoder::eight::{enables, losses, wraps};
use outputs::mode::bits_of;
use station::refusal::Refusal;

fn idle(phase: Phase) -> bool
    ensures { result ≡ is_idle phase }
{
    matches!(phase, Phase::Idle)
}

impl Board {
    // What the chips tell, in bits 16 to 19.
    fn chip_bits(&self) -> u32
        ensures value { result ≡ chip_bits self.now }
        ensures bound { result < 16 }
    {
        u32::from(self.low.chip.ended)
            + 2 * u32::from(self.high.chip.ended)
            + 4 * u32::from(self.low.chip.done)
            + 8 * u32::from(self.high.chip.done)
    }

    // The interrupts that have come.
    pub fn interrupts(&self) -> u32
        ensures { result ≡ interrupts self.now }
    {
        let guards = u32::from(self.watchdog.rose)
            + 2 * u32::from(self.sense.fell)
            + 4 * u32::from(self.fuse.blown);
        u32::from(wraps(&self.encoders))
            + 0x100 * u32::from(losses(&self.encoders))
            + 0x1_0000 * self.chip_bits()
            + 0x20_0000 * guards
    }

    fn control(&self) -> u32
        ensures { result ≡ control self.now }
    {
        let low = self.low.select;
        let high = self.high.select;
        u32::from(self.sense.active) + 0x100 * u32::from(low) + 0x1_0000 * u32::from(high)
    }

    fn status(&self) -> u32
        ensures { result ≡ status self.now }
    {
        let chips = u32::from(idle(self.low.chip.phase))
            + 2 * u32::from(idle(self.high.chip.phase));
        let sampled = u32::from(self.fuse.sample) + 2 * u32::from(!self.sense.high);
        let guards = u32::from(self.watchdog.output) + 2 * u32::from(self.held());
        chips + 0x10 * sampled + 0x100 * guards
    }

    fn guard(&self) -> u32
        ensures { result ≡ guard self.now }
    {
        0x100 * u32::from(self.watchdog.enabled)
            + 0x4000 * u32::from(self.watchdog.active)
            + 0x8000 * u32::from(self.watchdog.selected)
    }

    fn codes_at(&self, pair: u8) -> u32
        ensures { result ≡ codes_at self.now (pair % 4) }
    {
        let n = usize::from(pair % 4);
        self.outputs.channels[n].latch.value + 0x1_0000 * self.outputs.channels[4 + n].latch.value
    }

    fn preset_latch(&self, number: u8) -> u32
        ensures { result ≡ preset_latch self.now (number % 8) }
    {
        self.encoders[usize::from(number % 8)].latch.value
    }

    // The results of both chips.
    fn results(&self) -> (u16, u16)
        ensures { result ≡ results self.now }
    {
        (self.low.chip.read(), self.high.chip.read())
    }

    // What a register reads.
    pub fn read(&self, register: Register) -> Result<u32, Refusal>
        ensures { result ≡ fetched self.now register }
    {
        match register {
            Register::InterruptEnable => Ok(self.enabled),
            Register::InterruptStatus => Ok(self.interrupts()),
            Register::Control => Ok(self.control()),
            Register::Status => Ok(self.status()),
            Register::Preload => Ok(self.watchdog.preload),
            Register::WatchdogControl => Ok(self.guard()),
            Register::Digital => Ok(self.port.read()),
            Register::Direction => Ok(self.port.direction),
            Register::Results => {
                let (low, high) = self.results();
                Ok(u32::from(low) + 0x1_0000 * u32::from(high))
            }
            Register::Codes { pair } => Ok(self.codes_at(pair)),
            Register::Modes => Ok(bits_of(self.outputs.modes())),
            Register::EncoderModes => Ok(enables(&self.encoders)),
            Register::Update | Register::EncoderCommand => Err(Refusal::WriteOnly),
            Register::Encoder { number } => Ok(self.preset_latch(number)),
        }
    }

    // The board after a read: that of the results moves both chips on to their next one.
    pub fn after_read(mut self, register: Register) -> Board
        ensures { result ≡ after_read self register }
    {
        if let Register::Results = register {
            self.low.chip = self.low.chip.moved_on();
            self.high.chip = self.high.chip.moved_on();
        }
        self
    }
}
