// The promise of the bench: what holds of every chain and every list of calls, in one contract.
#![tactic(auto)]

ghost use Rattle.std.specs.Prelude.{◌≡◌, List};
ghost use Rattle.bench.specs.Calls.{fresh};
ghost use Rattle.bench.specs.declared.request.Request.{Request};
ghost use Rattle.promise.specs.Whole.{Whole};

use bench::Bench;
use station::Station;

pub mod lift;
#[cfg(test)]
mod tests;

// Sets a chain up on a new bench. Whatever is called then, and in whatever order: a ready place falls at the
// tick that the law of falls names, and a held place is at rest.
pub fn set_up<S: Station>(chain: S) -> Bench<S>
    ensures value { result ≡ fresh chain }
    ensures promise { (requests : List Request) → Whole S.Station.meaning chain requests }
{
    Bench::new(chain)
}
