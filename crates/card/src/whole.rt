ghost use Rattle.std.specs.Prelude.{◌≡◌, true};
ghost use Rattle.card.specs.Quiet.{quiet};

use board::parts::Board;

// A Q8 card. One that is held has codes, latches, modes and direction 0.
#[derive(Clone, Copy)]
pub struct Card {
    pub(crate) board: Board,
    ghost held_rests: { quiet board ≡ true },
}
