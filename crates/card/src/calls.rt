ghost use Rattle.std.specs.Prelude.{◌≡◌};
ghost use Rattle.board.specs.Boards.{ticked};
ghost use Rattle.board.specs.Registers.{numbered};
ghost use Rattle.board.specs.Wires.{wire_numbered};
ghost use Rattle.board.specs.Writes.{with_watchdog};
ghost use Rattle.guards.specs.Watchdogs.{with_preload};
ghost use Rattle.card.specs.Cards.{card, write_board, wire_board, armed_board};
ghost use Rattle.card.specs.Quiet.{hold};
ghost use Rattle.card.specs.Calling.{card_rules};

use crate::settled::{facts, hold, line, put_watchdog};
use crate::whole::Card;
use board::parts::Board;
use board::register::Register;
use board::wires::Wire;
use guards::watchdog::Control;
use station::Station;
use station::facts::Facts;
use station::place::Place;
use station::refusal::Refusal;

// One tick of a board, then the hold.
fn tick_board(board: &mut Board, level: bool)
    ensures { board.new ≡ hold (ticked board.old level) }
{
    board.tick(level);
    hold(board);
}

// The board after a write, by the number of the register.
fn write_board(board: Board, register: u8, value: u32) -> Result<Board, Refusal>
    ensures { result ≡ write_board board (numbered register) value }
{
    let register = Register::try_from(register)?;
    register.allowed(value)?;
    Ok(board.written(register, value))
}

// The board after a wire is set, by the number of the wire.
fn wire_board(board: Board, wire: u8, level: u32) -> Result<Board, Refusal>
    ensures { result ≡ wire_board board (wire_numbered wire) level }
{
    board.wired(Wire::try_from(wire)?, level)
}

// A number of ticks is put into the preload, then the hold.
fn preload_board(board: &mut Board, ticks: u32)
    ensures { board.new ≡ hold (with_watchdog board.old (with_preload board.old.watchdog ticks)) }
{
    let watchdog = board.watchdog.with_preload(ticks);
    put_watchdog(board, watchdog);
}

// Arming writes EN, LD, ACT and SEL as 1, then the hold.
fn arm_board(board: &mut Board)
    ensures { board.new ≡ hold (armed_board board.old) }
{
    let watchdog = board.watchdog.controlled(Control {
        enabled: true,
        load: true,
        active: true,
        selected: true,
    });
    put_watchdog(board, watchdog);
}

impl Station for Card {
    ghost meaning = { card };

    ghost rules = { card_rules };

    fn places(&self) -> u8 {
        1
    }

    fn facts(&self, _place: Place) -> Facts {
        facts(&self.board)
    }

    fn sends(&self) -> bool {
        line(&self.board)
    }

    fn tick(&mut self, level: bool) {
        tick_board(&mut self.board, level);
    }

    fn read(&mut self, _place: Place, register: u8) -> Result<u32, Refusal> {
        let register = Register::try_from(register)?;
        let value = self.board.read(register)?;
        *self = Card::settled(self.board.after_read(register));
        Ok(value)
    }

    fn write(&mut self, _place: Place, register: u8, value: u32) -> Result<(), Refusal> {
        *self = Card::settled(write_board(self.board, register, value)?);
        Ok(())
    }

    fn wire(&mut self, _place: Place, wire: u8, level: u32) -> Result<(), Refusal> {
        *self = Card::settled(wire_board(self.board, wire, level)?);
        Ok(())
    }

    fn volts(&self, _place: Place, channel: u8) -> Result<i32, Refusal> {
        if channel < 8 {
            Ok(self.board.outputs.volts(channel))
        } else {
            Err(Refusal::NoSuch)
        }
    }

    fn acknowledge(&mut self, _place: Place, bits: u32) {
        *self = Card::settled(self.board.status_cleared(bits));
    }

    fn preload(&mut self, _place: Place, ticks: u32) -> Result<(), Refusal> {
        preload_board(&mut self.board, ticks);
        Ok(())
    }

    fn arm(&mut self, _place: Place) -> Result<(), Refusal> {
        arm_board(&mut self.board);
        Ok(())
    }

    fn kick(&mut self, place: Place) -> Result<(), Refusal> {
        self.arm(place)
    }
}
