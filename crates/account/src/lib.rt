// An account of a trace: what came of each line, and when each place came to rest.
#![tactic(auto)]

ghost use Rattle.std.specs.Prelude.{IfOk};
ghost use Rattle.lines.specs.Cuts.{lines};
ghost use Rattle.account.specs.Accounts.{Accounts};

use bench::Bench;
use lines::cutting::Lines;
use replay::refusal::Refusal;
use station::Station;
use std::alloc::{AllocError, Global};
use watch::Watch;

pub mod row;
pub mod watch;
pub mod watching;

// The bench as it was watched through a trace, and what came of each line.
#[derive(Drop)]
pub struct Account<S> {
    pub watch: Watch<S>,
    pub outcomes: Vec<Result<u32, Refusal>>,
}

// Replays a whole trace, and keeps the account of it.
#[tactic(auto, using(crate::proofs::Told::sofar_begun))]
pub fn account_of<S: Station + Drop>(
    heap: Global,
    bench: Bench<S>,
    trace: &[u8],
) -> Result<Account<S>, AllocError>
    ensures { IfOk result (λ a. Accounts S.Station.meaning bench (lines trace.now) a) }
{
    let mut watch = Watch::new(heap, bench)?;
    let mut outcomes = Vec::new(heap);
    for line in Lines::of(trace) {
        outcomes.push(watch.replay_line(line))?;
    }
    Ok(Account { watch, outcomes })
}
