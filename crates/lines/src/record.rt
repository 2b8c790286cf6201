ghost use Rattle.std.specs.Prelude.{◌≡◌, Err};
ghost use Rattle.lines.specs.Records.{layer_number, word_of, two, written, record_of};

use crate::digits::letter;

// The layer that turns a line down: what reads the lines, the bench, or a station.
#[derive(Clone, Copy, PartialEq, Eq, Debug)]
pub enum Layer {
    Line,
    Bench,
    Station,
}

impl From<Layer> for u8 {
    ghost from_gives = { λ layer number. number ≡ layer_number layer };

    fn from(layer: Layer) -> u8 {
        match layer {
            Layer::Line => 1,
            Layer::Bench => 2,
            Layer::Station => 3,
        }
    }
}

impl From<Layer> for u32 {
    ghost from_gives = { λ layer number. number ≡ layer_number layer };

    fn from(layer: Layer) -> u32 {
        u32::from(u8::from(layer))
    }
}

// A refusal as its record carries it: its number, that of its layer, and a place or a column.
#[derive(Clone, Copy, PartialEq, Eq, Debug)]
pub struct Coded {
    pub number: u8,
    pub layer: u8,
    pub at: u16,
}

impl Coded {
    // Layer and place by arithmetic: as four bytes put together it is no shorter.
    fn word(self) -> u32
        ensures { result ≡ word_of (Err self) }
    {
        u32::from(self.layer) * 0x100_0000 + u32::from(self.at)
    }
}

// The eleven bytes of the record of a line. One that was carried out answers a word: 0 where there is none. By a match on the
// answer: what is known of a refusal is then known of its digits, which are half of the work for a short line.
pub fn record(answer: Result<u32, Coded>) -> [u8; 11]
    ensures { result ≡ record_of answer }
{
    match answer {
        Ok(word) => written(0, word),
        Err(refusal) => written(refusal.number, refusal.word()),
    }
}

// A number in two digits and a word in eight. Written out, since five pairs in an array would have to be flattened.
fn written(number: u8, word: u32) -> [u8; 11]
    ensures { result ≡ written number word }
{
    let [n1, n0] = two(number);
    let [a, b, c, d] = word.to_be_bytes();
    let [a1, a0] = two(a);
    let [b1, b0] = two(b);
    let [c1, c0] = two(c);
    let [d1, d0] = two(d);
    [n1, n0, a1, a0, b1, b0, c1, c0, d1, d0, b'\n']
}

// The two digits of a byte, the higher one first.
fn two(byte: u8) -> [u8; 2]
    ensures { result ≡ two byte }
{
    [letter(byte / 16), letter(byte % 16)]
}
