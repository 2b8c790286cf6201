ghost use Rattle.std.specs.Prelude.{◌≡◌};
ghost use Rattle.bits.specs.Words.{bit, byte_of};

// A single bit of a word.
pub fn bit(word: u32, number: u32) -> bool
    ensures { result ≡ bit word number }
{
    number < 32 && word >> number & 1 == 1
}

// Eight bits gathered into a byte, the first into bit 0. The modes of the outputs and the encoders' enables are gathered
// by chains of this form too: one function for the three would have to require that the digits fit, as here the types say.
pub fn byte_of(bits: [bool; 8]) -> u8
    ensures { result ≡ byte_of bits }
{
    bits.iter()
        .rev()
        .fold(0, |byte, &bit| byte << 1 | u8::from(bit))
}
