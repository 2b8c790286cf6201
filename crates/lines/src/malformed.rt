ghost use Rattle.std.specs.Prelude.{◌≡◌, Some, codes};
ghost use Rattle.lines.specs.Lines.{number, column};
ghost use Rattle.lines.specs.declared.malformed.Malformed.TheVariants.{NotDigit, UnknownKind, WrongLength, TooLong};

use std::error::Error;
use std::fmt;

// Why a line is no command. Columns count from 1.
#[derive(Clone, Copy, PartialEq, Eq, Debug)]
pub enum Malformed {
    // The character at the column is no digit.
    NotDigit { column: u8 },
    // The first two digits name no kind of command.
    UnknownKind,
    // The line has so many digits, and its kind wants another number of them.
    WrongLength { digits: u8 },
    // There are more than 80 characters.
    TooLong,
}

impl Malformed {
    // The number by which the refusal is known: a method, whose name says what `u8::from` would not.
    pub fn number(self) -> u8
        ensures { result ≡ number self }
    {
        match self {
            Malformed::NotDigit { .. } => 10,
            Malformed::UnknownKind => 11,
            Malformed::WrongLength { .. } => 12,
            Malformed::TooLong => 13,
        }
    }

    // The column that the refusal names.
    pub fn column(self) -> u16
        ensures { result ≡ column self }
    {
        match self {
            Malformed::NotDigit { column } => u16::from(column),
            Malformed::UnknownKind => 1,
            Malformed::WrongLength { digits } => u16::from(digits) + 1,
            Malformed::TooLong => 81,
        }
    }
}

// What the refusal means, for people.
impl fmt::Display for Malformed {
    ghost output = { elim [
      | NotDigit column ↦ Some (codes "that character is no digit: 0 to 9 and A to F are")
      | UnknownKind ↦ Some (codes "the first two digits name no kind of line: 01, 02, 03, 04 and 07 do")
      | WrongLength digits ↦ Some (codes "the length is wrong: kinds 01 and 03 have 14 digits, 04 has 12, 02 and 07 have 6")
      | TooLong ↦ Some (codes "a line has at most 80 characters")
    ] };

    fn fmt<W: fmt::Write>(&self, f: &mut fmt::Formatter<W>) -> fmt::Result {
        f.write_str(match self {
            Malformed::NotDigit { .. } => "that character is no digit: 0 to 9 and A to F are",
            Malformed::UnknownKind =>
                "the first two digits name no kind of line: 01, 02, 03, 04 and 07 do",
            Malformed::WrongLength { .. } =>
                "the length is wrong: kinds 01 and 03 have 14 digits, 04 has 12, 02 and 07 have 6",
            Malformed::TooLong => "a line has at most 80 characters",
        })
    }
}

impl Error for Malformed {}
