ghost use Rattle.std.specs.Prelude.{◌≡◌, cond, nat_lt, IfOk};
ghost use Rattle.bench.specs.declared.refusal.Refusal.TheVariants.{TooMany};
ghost use Rattle.bench.specs.declared.request.Request.TheVariants.{Run, Until};
ghost use Rattle.bench.specs.Calls.{reply, performed};
ghost use Rattle.bench.specs.Ticks.{ticks, any_pending, ticks_until, Stops};

use crate::refusal::Refusal;
use crate::{Bench, MOST};
use station::Station;
use station::place::Place;

// Ticks a chain n times at one level.
fn tick_all<S: Station>(chain: &mut S, level: bool, count: u32)
    ensures { chain.new ≡ ticks S.Station.meaning chain.old level count }
{
    for _i in 0..count {
        chain.tick(level);
    }
}

// Whether an addressed place has an interrupt pending.
fn any_pending<S: Station>(chain: &S) -> bool
    ensures { result ≡ any_pending S.Station.meaning chain.now }
{
    for number in 0..chain.places() {
        if chain.facts(Place { number }).pending != 0 {
            return true;
        }
    }
    false
}

// Ticks a chain at one level while no interrupt is pending, and tells how often.
fn tick_until<S: Station>(chain: &mut S, level: bool, most: u32) -> u32
    ensures value { result ≡ ticks_until S.Station.meaning chain.old level most }
    ensures after { chain.new ≡ ticks S.Station.meaning chain.old level result }
    ensures stops { Stops S.Station.meaning chain.old level most result }
{
    for made in 0..most {
        if any_pending(chain) {
            return made;
        }
        chain.tick(level);
    }
    most
}

// Whether one call makes so many ticks.
fn within(count: u32) -> Result<(), Refusal>
    ensures { result ≡ cond (nat_lt 1000000 count) (Err TooMany) (Ok tt) }
{
    if count > MOST {
        Err(Refusal::TooMany)
    } else {
        Ok(())
    }
}

// Level and count stand as two parameters: a struct for them would say no more at a call.
impl<S: Station> Bench<S> {
    // Makes n ticks, in all of which the outside line is at a level, and answers n.
    pub fn run(&mut self, level: bool, count: u32) -> Result<u32, Refusal>
        ensures value { result ≡ reply S.Station.meaning self.old (Run level count) }
        ensures after { self.new ≡ performed S.Station.meaning self.old (Run level count) }
    {
        within(count)?;
        tick_all(&mut self.chain, level, count);
        Ok(count)
    }

    // Makes ticks while no addressed place has an interrupt pending, at most n, and answers how many.
    pub fn until(&mut self, level: bool, count: u32) -> Result<u32, Refusal>
        ensures value { result ≡ reply S.Station.meaning self.old (Until level count) }
        ensures after { self.new ≡ performed S.Station.meaning self.old (Until level count) }
        ensures stops { IfOk result (λ t. Stops S.Station.meaning self.old.chain level count t) }
    {
        within(count)?;
        Ok(tick_until(&mut self.chain, level, count))
    }

    // Whether an addressed place has an interrupt pending, which is what `until` waits for.
    pub fn pending(&self) -> bool
        ensures { result ≡ any_pending S.Station.meaning self.now.chain }
    {
        any_pending(&self.chain)
    }
}
