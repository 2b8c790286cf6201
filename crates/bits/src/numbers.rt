ghost use Rattle.std.specs.Prelude.{◌≡◌};
ghost use Rattle.bits.specs.Numbers.{up_to};

use crate::number::UpTo;

impl<const MOST: u32> UpTo<MOST> {
    // A number modulo MOST + 1.
    pub fn of(number: u32) -> UpTo<MOST>
        ensures { result ≡ up_to MOST number }
    {
        let size = u64::from(MOST) + 1;
        UpTo {
            value: (u64::from(number) % size) as u32,
        }
    }
}
