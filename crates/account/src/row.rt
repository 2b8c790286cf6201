ghost use Rattle.std.specs.Prelude.{◌≡◌, false};
ghost use Rattle.account.specs.Rows.{begun_row, caused, noted, seen, passed_on};

use bench::refusal::Refusal;
use station::facts::Facts;

// The tick at which a place came to rest, counted from 1 with the trace, and what it could see of
// why. None of the three stands where a call held it.
#[derive(Clone, Copy)]
pub struct Rest {
    pub tick: u64,
    // It was due by itself.
    pub due: bool,
    // Its stop stood.
    pub stop: bool,
    // The line before it fell, and it passes or saw no other cause.
    pub line: bool,
}

// What was last seen of a place.
#[derive(Clone, Copy)]
pub struct Row {
    pub facts: Facts,
    // The level that the place heard at the last tick.
    pub heard: bool,
    // Since when the place is held, if it is.
    pub rest: Option<Rest>,
}

// A step of the bench, as a place hears it.
#[derive(Clone, Copy)]
pub struct Step {
    // The ticks that were made by then.
    pub tick: u64,
    // The level that the place hears in the tick; none at a call.
    pub hears: Option<bool>,
}

impl Rest {
    // The place came to rest at a tick, and saw no cause.
    fn uncaused(tick: u64) -> Rest
        ensures { result ≡ record { tick = tick; due = false; stop = false; line = false } }
    {
        Rest {
            tick,
            due: false,
            stop: false,
            line: false,
        }
    }
}

impl Step {
    // The same step, as the place behind that of a row hears it.
    pub fn behind(self, row: Row) -> Step
        ensures { result ≡ record { tick = self.tick; hears = passed_on row self.hears } }
    {
        Step {
            hears: self.hears.map(|_| row.facts.line),
            ..self
        }
    }
}

impl Row {
    // The first row of a place: one that is held already has been at rest since tick 0. The line is
    // taken to have been high.
    pub fn begun(facts: Facts) -> Row
        ensures { result ≡ begun_row facts }
    {
        Row {
            facts,
            heard: true,
            rest: facts.held.then_some(Rest::uncaused(0)),
        }
    }

    // Why the place may come to rest in a step.
    fn caused(self, step: Step) -> Rest
        ensures { result ≡ caused self step.tick step.hears }
    {
        let Some(level) = step.hears else {
            return Rest::uncaused(step.tick);
        };
        let due = self.facts.due == Some(1);
        let stop = self.facts.stop;
        let alone = !(due | stop);
        Rest {
            tick: step.tick,
            due,
            stop,
            line: self.heard & !level & (self.facts.passes | alone),
        }
    }

    // The row after a step.
    pub fn noted(self, step: Step, facts: Facts) -> Row
        ensures { result ≡ noted self step.tick step.hears facts }
    {
        let cause = self.caused(step);
        let since = if self.facts.held {
            self.rest
        } else {
            Some(cause)
        };
        Row {
            facts,
            heard: step.hears.unwrap_or(self.heard),
            rest: if facts.held { since } else { None },
        }
    }

    // The same where the place can be looked at; else the row stays.
    pub fn seen(self, step: Step, looked: Result<Facts, Refusal>) -> Row
        ensures { result ≡ seen self step.tick step.hears looked }
    {
        looked.map_or(self, |facts| self.noted(step, facts))
    }
}
