ghost use Rattle.std.specs.Prelude.{◌≡◌, ◌+◌, ◌≤◌, ◌++◌, length, IfOk, vec_len, OnOk};
ghost use Rattle.account.specs.Watches.{first_row, begun, rows_after, view, seeing, tick_view, run_view, request_view, line_view};
ghost use Rattle.bench.specs.Calls.{reply};
ghost use Rattle.lines.specs.Lines.{decoded};
ghost use Rattle.replay.specs.Replays.{request, outcome, line_told};

use crate::row::{Row, Step};
use crate::watch::Watch;
use bench::refusal::Refusal as Turned;
use bench::{Bench, MOST};
use lines::command::Command;
use lines::parse::decode;
use replay::carry_out;
use replay::refusal::Refusal;
use station::Station;
use station::facts::Facts;
use std::alloc::{AllocError, Global};

// Begins the row of a place that can be looked at.
fn begin(rows: &mut Vec<Row>, looked: Result<Facts, Turned>) -> Result<(), AllocError>
    ensures { OnOk result ((rows.new.items ≡ rows.old.items ++ first_row looked) × (vec_len rows.new ≤ vec_len rows.old + 1)) }
{
    if let Ok(facts) = looked {
        rows.push(Row::begun(facts))?;
    }
    Ok(())
}

// Notes what is to be seen of each place after a step, which the first place hears so.
#[tactic(auto, using(crate::proofs::Rows::rows_more), unfolding(crate::specs::Watches::rows_after))]
fn note_rows<S: Station>(bench: &Bench<S>, rows: &mut [Row], mut step: Step)
    requires { length rows.old ≤ 16 }
    ensures { rows.new ≡ rows_after S.Station.meaning bench.now step.tick step.hears 0 rows.old }
{
    for (place, row) in rows.iter_mut().enumerate() {
        let old = *row;
        *row = old.seen(step, bench.facts(place as u8));
        step = step.behind(old);
    }
}

impl<S: Station> Watch<S> {
    // Watches a bench from now on.
    #[tactic(auto, unfolding(crate::specs::Watches::first_rows))]
    pub fn new(heap: Global, bench: Bench<S>) -> Result<Watch<S>, AllocError>
    where
        S: Drop,
        ensures { IfOk result (λ w. view w ≡ begun S.Station.meaning bench) }
    {
        let mut rows = Vec::new(heap);
        for place in 0..bench.places() {
            begin(&mut rows, bench.facts(place))?;
        }
        Ok(Watch {
            bench,
            ticks: 0,
            rows,
        })
    }

    // One tick, in which the outside line is at a level.
    pub fn tick(&mut self, level: bool)
        ensures { view self.new ≡ tick_view S.Station.meaning level (view self.old) }
    {
        let _ = self.bench.run(level, 1);
        self.ticks = self.ticks.saturating_add(1);
        self.note(Some(level));
    }

    // So many ticks.
    #[tactic(auto, using(crate::proofs::Runs::run_more), unfolding(crate::specs::Watches::run_view))]
    fn run(&mut self, level: bool, count: u32)
        ensures { view self.new ≡ run_view S.Station.meaning level count (view self.old) }
    {
        for _i in 0..count {
            self.tick(level);
        }
    }

    // Carries a command out, a tick at a time where it makes ticks.
    pub fn carry_out(&mut self, command: Command) -> Result<u32, Refusal>
        ensures value { result ≡ outcome (request command) (reply S.Station.meaning self.old.bench (request command)) }
        ensures after { view self.new ≡ request_view S.Station.meaning (request command) (view self.old) }
    {
        match command {
            Command::Run { high, count } if count <= MOST => {
                self.run(high, count);
                Ok(count)
            }
            _ => {
                let outcome = carry_out(&mut self.bench, command);
                self.note(None);
                outcome
            }
        }
    }

    // Carries a line of a trace out, or says why not.
    pub fn replay_line(&mut self, line: &[u8]) -> Result<u32, Refusal>
        ensures value { result ≡ line_told S.Station.meaning self.old.bench (decoded line.now) }
        ensures after { view self.new ≡ line_view S.Station.meaning (decoded line.now) (view self.old) }
    {
        self.carry_out(decode(line)?)
    }

    // Looks at each place after a tick at a level, or after a call.
    fn note(&mut self, told: Option<bool>)
        ensures { view self.new ≡ seeing S.Station.meaning self.old.bench self.old.ticks told (view self.old) }
    {
        let step = Step {
            tick: self.ticks,
            hears: told,
        };
        note_rows(&self.bench, &mut self.rows, step);
    }
}
