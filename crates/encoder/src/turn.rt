ghost use Rattle.std.specs.Prelude.{◌≡◌};
ghost use Rattle.encoder.specs.Turns.{place, turn};

// The levels of an encoder's two wires.
#[derive(Clone, Copy, PartialEq, Eq)]
pub struct Levels {
    pub a: bool,
    pub b: bool,
}

// What a change of the levels says of the shaft.
#[derive(Clone, Copy)]
pub enum Turn {
    Still,
    Up,
    Down,
    // Both levels changed at once: the direction is lost.
    Lost,
}

// Old and new levels to a turn. The old levels pick a row and the new ones a column; in each A
// counts 1 and B counts 2. A and B at 00, 10, 11, 01 and again 00 count up.
// A table: the rules of the project ask for a constant table of sixteen transitions.
const TURNS: [Turn; 16] = [
    Turn::Still,
    Turn::Up,
    Turn::Down,
    Turn::Lost,
    Turn::Down,
    Turn::Still,
    Turn::Lost,
    Turn::Up,
    Turn::Up,
    Turn::Lost,
    Turn::Still,
    Turn::Down,
    Turn::Lost,
    Turn::Down,
    Turn::Up,
    Turn::Still,
];

// The levels as a number below 4.
fn place(levels: Levels) -> usize
    ensures { result ≡ place levels }
{
    usize::from(levels.a) + 2 * usize::from(levels.b)
}

// The turn from old levels to new ones.
pub fn turned(old: Levels, new: Levels) -> Turn
    ensures { result ≡ turn old new }
{
    TURNS[4 * place(old) + place(new)]
}
