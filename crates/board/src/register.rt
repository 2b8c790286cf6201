ghost use Rattle.std.specs.Prelude.{◌≡◌};
ghost use Rattle.board.specs.Registers.{numbered, named, forbidden, allowed};

use outputs::mode::modes_allowed;
use station::refusal::Refusal;

// A register of the card.
#[derive(Clone, Copy)]
pub enum Register {
    // IEN, IST: which interrupts are enabled, and which have come; a 1 clears.
    InterruptEnable,
    InterruptStatus,
    // CTL, STS
    Control,
    Status,
    // WPL, CCT: the watchdog's preload and control.
    Preload,
    WatchdogControl,
    // DIO, DIR
    Digital,
    Direction,
    // ADR: the results of both chips.
    Results,
    // DAA to DAD: the codes of channels n and 4 + n.
    Codes { pair: u8 },
    // DAU, DAM
    Update,
    Modes,
    // ENM, ENL
    EncoderModes,
    EncoderCommand,
    // EN0 to EN7: latch and preset.
    Encoder { number: u8 },
}

impl TryFrom<u8> for Register {
    type Error = Refusal;

    ghost try_from_gives = { λ number register. register ≡ named (numbered number) };

    #[tactic(auto, unfolding(crate::specs::Registers::numbered))]
    fn try_from(number: u8) -> Result<Register, Refusal> {
        match number {
            0x00 => Ok(Register::InterruptEnable),
            0x01 => Ok(Register::InterruptStatus),
            0x02 => Ok(Register::Control),
            0x03 => Ok(Register::Status),
            0x06 => Ok(Register::Preload),
            0x08 => Ok(Register::WatchdogControl),
            0x09 => Ok(Register::Digital),
            0x0a => Ok(Register::Direction),
            0x0b => Ok(Register::Results),
            0x0c..=0x0f => Ok(Register::Codes {
                pair: number - 0x0c,
            }),
            0x10 => Ok(Register::Update),
            0x11 => Ok(Register::Modes),
            0x13 => Ok(Register::EncoderModes),
            0x14 => Ok(Register::EncoderCommand),
            0x15..=0x1c => Ok(Register::Encoder {
                number: number - 0x15,
            }),
            _ => Err(Refusal::NoSuch),
        }
    }
}

impl Register {
    // The bits that may not be written 1.
    fn forbidden(self) -> u32
        ensures { result ≡ forbidden self }
    {
        match self {
            Register::InterruptEnable => 0xff10_0000,
            Register::InterruptStatus => 0xff10_0000,
            Register::Control => 0xfff0_f03e,
            Register::WatchdogControl => 0xffff_2eff,
            Register::Codes { .. } => 0xf000_f000,
            Register::EncoderModes => 0xeeee_eeee,
            Register::EncoderCommand => 0xff00_0000,
            Register::Encoder { .. } => 0xff00_0000,
            _ => 0,
        }
    }

    // Whether a value may be written.
    pub fn allowed(self, value: u32) -> Result<(), Refusal>
        ensures { result ≡ allowed self value }
    {
        let fits = match self {
            Register::Status | Register::Results => return Err(Refusal::ReadOnly),
            Register::Modes => modes_allowed(value),
            _ => value & self.forbidden() == 0,
        };
        if fits {
            Ok(())
        } else {
            Err(Refusal::NotAllowed)
        }
    }
}
