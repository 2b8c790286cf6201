ghost use Rattle.std.specs.Prelude.{◌≡◌};
ghost use Rattle.promise.specs.Lifts.{fresh_lift, Placed};

use card::whole::Card;
use drive::motor::Drive;
use station::joined::Joined;

// The chain of a lift machine: the card of the tray, the drive between them, and the card of the doors.
pub type Lift = Joined<Card, Joined<Drive, Card>>;

// A new lift machine, at places 0, 1 and 2.
pub fn new_lift() -> Lift
    ensures value { result ≡ fresh_lift }
    ensures placed { Placed }
{
    Joined {
        first: Card::new(),
        second: Joined {
            first: Drive::new(),
            second: Card::new(),
        },
    }
}
