ghost use Rattle.std.specs.Prelude.{◌≡◌, ◌+◌, ◌<◌, length};
ghost use Rattle.lines.specs.Digits.{digit, nibble, byte_at, word_at, letter};

// The value of a digit, 0 to 9 or A to F. Not by `to_digit`, which takes a to f too.
pub fn digit(character: u8) -> Option<u8>
    ensures { result ≡ digit character }
{
    match character {
        b'0'..=b'9' => Some(character - b'0'),
        b'A'..=b'F' => Some(character - b'A' + 10),
        _ => None,
    }
}

// The value of a digit, 0 for any other character.
fn nibble(character: u8) -> u8
    ensures value { result ≡ nibble character }
    ensures bound { result < 16 }
{
    digit(character).unwrap_or(0)
}

// The number that the two digits at a place of the line write.
pub(crate) fn byte_at(line: &[u8], at: usize) -> u8
    requires { at + 1 < length line.now }
    ensures { result ≡ byte_at line.now at }
{
    16 * nibble(line[at]) + nibble(line[at + 1])
}

// The number that the eight digits at a place of the line write. The four bytes are written out: a closure that takes the
// place of each would have to require again that it is within the line.
pub(crate) fn word_at(line: &[u8], at: usize) -> u32
    requires { at + 7 < length line.now }
    ensures { result ≡ word_at line.now at }
{
    u32::from_be_bytes([
        byte_at(line, at),
        byte_at(line, at + 2),
        byte_at(line, at + 4),
        byte_at(line, at + 6),
    ])
}

// The digit that writes a value below 16. By hand, since `char::from_digit` writes a to f in small letters.
pub(crate) fn letter(value: u8) -> u8
    requires { value < 16 }
    ensures { result ≡ letter value }
{
    if value < 10 {
        b'0' + value
    } else {
        b'A' + (value - 10)
    }
}
