ghost use Rattle.std.specs.Prelude.{◌≡◌};
ghost use Rattle.board.specs.Writes.{with_watchdog};
ghost use Rattle.card.specs.Cards.{settled, fresh_card};
ghost use Rattle.card.specs.Facts.{line, seen};
ghost use Rattle.card.specs.Quiet.{hold};

use crate::whole::Card;
use board::parts::Board;
use guards::watchdog::Watchdog;
use outputs::channels::Outputs;
use station::facts::Facts;

// The hold: a standing cause puts codes, latches, modes and direction to 0. The digital latch stays.
pub(crate) fn hold(board: &mut Board)
    ensures { board.new ≡ hold board.old }
{
    if board.held() {
        board.outputs = Outputs::silent();
        board.port = board.port.with_direction(0);
    }
}

// Another watchdog, then the hold. In place: a board that is copied takes most of the time of a call.
pub(crate) fn put_watchdog(board: &mut Board, watchdog: Watchdog)
    ensures { board.new ≡ hold (with_watchdog board.old watchdog) }
{
    board.watchdog = watchdog;
    hold(board);
}

// The level that a card sends on: with SEL low exactly while it is held, else the watchdog's output.
pub fn line(board: &Board) -> bool
    ensures { result ≡ line board.now }
{
    if board.watchdog.selected {
        !board.held()
    } else {
        board.watchdog.output
    }
}

// The eight facts of a card.
pub fn facts(board: &Board) -> Facts
    ensures { result ≡ seen board.now }
{
    let held = board.held();
    let passes = board.sense.active & board.watchdog.selected;
    let off = !(board.watchdog.enabled & board.watchdog.active);
    Facts {
        held,
        rest: board.outputs.at_rest() & (board.port.direction == 0),
        passes,
        line: line(board),
        ready: passes & !held & board.sense.high & (off | board.watchdog.armed()),
        due: board.watchdog.due(),
        stop: board.fuse.wire,
        pending: board.enabled & board.interrupts(),
    }
}

impl Card {
    // The card with its parts in a state, held if a cause stands.
    #[tactic(auto, using(crate::specs::Cards::hold_quiet, crate::proofs::Same::same_card), unfolding(crate::specs::Cards::settled))]
    pub(crate) fn settled(mut board: Board) -> Card
        ensures { result ≡ settled board }
    {
        hold(&mut board);
        Card { board }
    }

    // A new card.
    pub fn new() -> Card
        ensures { result ≡ fresh_card }
    {
        Card::settled(Board::new())
    }
}
