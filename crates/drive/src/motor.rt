ghost use Rattle.std.specs.Prelude.{◌≡◌, true};
ghost use Rattle.drive.specs.Quiet.{quiet};

use crate::state::State;

// A motor drive. One whose latch is set has set point 0.
#[derive(Clone, Copy)]
pub struct Drive {
    pub(crate) state: State,
    ghost rests: { quiet state ≡ true },
}
