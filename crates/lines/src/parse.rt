ghost use Rattle.std.specs.Prelude.{◌≡◌, ◌≤◌, not, is_some, length, position};
ghost use Rattle.lines.specs.Digits.{digit};
ghost use Rattle.lines.specs.Lines.{kind, digits, fields, first_bad, of_kind, of_digits, decoded};
ghost use Rattle.std.specs.Option.{ok_or};
ghost use Rattle.lines.specs.declared.malformed.Malformed.TheVariants.{UnknownKind, WrongLength};

use crate::command::Command;
use crate::digits::{byte_at, digit, word_at};
use crate::malformed::Malformed;

// A kind of line, by its first two digits.
#[derive(Clone, Copy)]
pub enum Kind {
    Write,
    Read,
    Wire,
    Run,
    Volts,
}

impl TryFrom<u8> for Kind {
    type Error = Malformed;

    ghost try_from_gives = { λ number r. r ≡ ok_or (kind number) UnknownKind };

    fn try_from(number: u8) -> Result<Kind, Malformed> {
        match number {
            1 => Ok(Kind::Write),
            2 => Ok(Kind::Read),
            3 => Ok(Kind::Wire),
            4 => Ok(Kind::Run),
            7 => Ok(Kind::Volts),
            _ => Err(Malformed::UnknownKind),
        }
    }
}

impl Kind {
    // How many digits a line of this kind has.
    fn digits(self) -> usize
        ensures { result ≡ digits self }
    {
        match self {
            Kind::Write => 14,
            Kind::Read => 6,
            Kind::Wire => 14,
            Kind::Run => 12,
            Kind::Volts => 6,
        }
    }

    // The fields of a line of this kind.
    fn fields(self, line: &[u8]) -> Command
        requires { length line.now ≡ digits self }
        ensures { result ≡ fields self line.now }
    {
        match self {
            Kind::Write => Command::Write {
                place: byte_at(line, 2),
                register: byte_at(line, 4),
                value: word_at(line, 6),
            },
            Kind::Read => Command::Read {
                place: byte_at(line, 2),
                register: byte_at(line, 4),
            },
            Kind::Wire => Command::Wire {
                place: byte_at(line, 2),
                wire: byte_at(line, 4),
                level: word_at(line, 6),
            },
            Kind::Run => Command::Run {
                high: byte_at(line, 2) != 0,
                count: word_at(line, 4),
            },
            Kind::Volts => Command::Volts {
                place: byte_at(line, 2),
                channel: byte_at(line, 4),
            },
        }
    }
}

// A line of at most 80 characters.
#[derive(Clone, Copy)]
struct Short<'a> {
    text: &'a [u8],
    ghost short: { length text.now ≤ 80 },
}

impl<'a> Short<'a> {
    // The place of the first character that is no digit.
    fn bad_place(&self) -> Option<usize>
        ensures { result ≡ position (λ c. not (is_some (digit c))) self.now.text.now }
    {
        self.text.iter().position(|c| digit(*c).is_none())
    }

    // Its column, counted from 1.
    #[tactic(auto, using(crate::proofs::Columns::column_of_place))]
    fn first_bad(&self) -> Option<u8>
        ensures { result ≡ first_bad 1 self.now.text.now }
    {
        Some(self.bad_place()? as u8 + 1)
    }

    // The command that the line writes, if it is digits only.
    fn of_digits(&self) -> Result<Command, Malformed>
        ensures { result ≡ of_digits self.now.text.now }
    {
        if self.text.len() < 2 {
            return Err(self.wrong_length());
        }
        self.of_kind(Kind::try_from(byte_at(self.text, 0))?)
    }

    // The same for a line of a kind.
    fn of_kind(&self, kind: Kind) -> Result<Command, Malformed>
        ensures { result ≡ of_kind self.now.text.now (Some kind) }
    {
        if self.text.len() == kind.digits() {
            Ok(kind.fields(self.text))
        } else {
            Err(self.wrong_length())
        }
    }

    fn wrong_length(&self) -> Malformed
        ensures { result ≡ WrongLength (length self.now.text.now) }
    {
        Malformed::WrongLength {
            digits: self.text.len() as u8,
        }
    }
}

// The command that a line writes, or why it writes none.
pub fn decode(line: &[u8]) -> Result<Command, Malformed>
    ensures { result ≡ decoded line.now }
{
    if line.len() > 80 {
        return Err(Malformed::TooLong);
    }
    let line = Short { text: line };
    match line.first_bad() {
        Some(column) => Err(Malformed::NotDigit { column }),
        None => line.of_digits(),
    }
}
