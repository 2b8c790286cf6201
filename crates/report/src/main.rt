// Replays a trace from standard input on a lift machine, and prints it with its answers, followed by an account
// for people: what was refused and why, when each place came to rest and when the others will, and
// what the cards put out and have counted.
#![tactic(auto)]

use account::account_of;
use promise::lift::new_lift;
use promise::set_up;
use std::io::Read;

mod counts;
mod forecasts;
mod kinds;
mod listing;
mod places;
mod refusals;
mod units;

fn run(rt: &HostRuntime) -> anyhow::Result<()> {
    let heap = rt.alloc();
    let mut trace = Vec::new(heap);
    rt.stdin().read_to_end(&mut trace)?;
    let mut account = account_of(heap, set_up(new_lift()), &trace)?;
    let mut text = String::new(heap);
    listing::write_trace(&mut text, &trace, &account.outcomes)?;
    refusals::write_tally(&mut text, &account.outcomes, account.watch.ticks)?;
    refusals::write_refusals(&mut text, &account.outcomes)?;
    places::write_places(&mut text, &account.watch)?;
    forecasts::write_forecasts(&mut text, &account.watch)?;
    counts::write_counts(&mut text, &mut account.watch.bench)?;
    rt.print(text)?;
    Ok(())
}

fn main(rt: HostRuntime) -> anyhow::Result<()> {
    run(&rt)
}
