// The law of falls: which place is held after which tick, for every station and every history.
#![tactic(auto)]

ghost use Rattle.std.specs.Prelude.{◌≡◌, ◌^◌, false};
ghost use Rattle.falls.specs.Bounds.{AtMost};
ghost use Rattle.falls.specs.Forecasts.{settled, waiting, foretold, unsettled, told, Foretells};
ghost use Rattle.falls.specs.Histories.{earlier, one_later};
ghost use Rattle.falls.specs.Law.{Law};

use forecast::Forecast;
use station::Station;
use station::facts::Facts;
use station::place::Place;

pub mod forecast;

// A place of which the future can be told: it is ready, or held and passes.
fn settled(facts: Facts) -> bool
    ensures { result ≡ settled facts }
{
    facts.ready | facts.held & facts.passes
}

// When a place falls of its own accord, where `low` tells that place 0 hears a low line from outside.
fn waiting(facts: Facts, low: bool) -> Option<u128>
    ensures value { result ≡ waiting facts low }
    ensures bound { AtMost result (2 ^ 64) }
{
    if facts.held {
        Some(0)
    } else if facts.stop | low {
        Some(1)
    } else {
        facts.due.map(u128::from)
    }
}

// The earlier of two ticks, each of which there may be none of.
fn earlier(a: Option<u128>, b: Option<u128>) -> Option<u128>
    ensures { result ≡ earlier a b }
{
    match (a, b) {
        (Some(a), Some(b)) => Some(a.min(b)),
        _ => a.or(b),
    }
}

fn one_later(tick: Option<u128>) -> Option<u128>
    requires { AtMost tick (2 ^ 65) }
    ensures { result ≡ one_later tick }
{
    tick.map(|n| n + 1)
}

// The first addressed place of which nothing can be told. No `find`: its closure would have to require again that a place
// has an address.
fn first_unsettled<S: Station>(chain: &S) -> Option<u8>
    ensures { result ≡ unsettled S.Station.meaning chain.now }
{
    for number in 0..chain.places() {
        if !settled(chain.facts(Place { number })) {
            return Some(number);
        }
    }
    None
}

// The tick at which a place falls, where all are ready and nothing more happens from outside.
fn expect<S: Station>(chain: &S, level: bool, place: Place) -> Option<u128>
    ensures { result ≡ foretold S.Station.meaning chain.now level place.number }
{
    let mut falls = waiting(chain.facts(Place { number: 0 }), !level);
    // Over the place before each: a loop over `1..=n` has two ends, and the proof stands twice.
    for before in 0..place.number {
        let number = before + 1;
        let own = waiting(chain.facts(Place { number }), false);
        falls = earlier(own, one_later(falls));
    }
    falls
}

// What is to become of a place, if from now on no wire changes, no guard call is made and the outside
// line stays at a level.
pub fn foretell<S: Station>(chain: &S, level: bool, place: Place) -> Forecast
    ensures value { result ≡ told (unsettled S.Station.meaning chain.now) (foretold S.Station.meaning chain.now level place.number) }
    ensures foretells { Foretells S.Station.meaning chain.now level }
    ensures law { Law S.Station.meaning }
{
    told(first_unsettled(chain), expect(chain, level, place))
}

fn told(unsettled: Option<u8>, falls: Option<u128>) -> Forecast
    ensures { result ≡ told unsettled falls }
{
    match (unsettled, falls) {
        (Some(place), _) => Forecast::Unsettled { place },
        (None, Some(tick)) => Forecast::At { tick },
        (None, None) => Forecast::Never,
    }
}
