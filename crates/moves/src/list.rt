// The waiting list and the places: a timer is pushed on the list, and a free place is found.
ghost use Rattle.std.specs.Prelude.{◌≡◌, ◌<◌};
ghost use Rattle.heap.specs.Capacity.{cap};
ghost use Rattle.moves.specs.Rules.{link_to};
ghost use Rattle.moves.specs.Promises.{Touches, FindsFree};

use heap::Place;
use state::{Life, Set, Timer, Waiting};

// The timer at a place gets a new life and is pushed on the list. One that waits already stays where it is in the list.
pub fn touched(mut s: Set, place: Place, life: Life) -> Set
    requires { place.0 < cap }
    ensures { Touches s place life result }
{
    let p = place.0 as usize;
    let t = s.timers[p];
    if state::fault::waits(t.waiting) {
        s.timers[p] = Timer { life, ..t };
        return s;
    }
    s.timers[p] = Timer {
        life,
        waiting: link_to(s.first),
        ..t
    };
    s.first = Some(place);
    s
}

// The lowest free place.
pub fn lowest_free(s: Set) -> Option<Place>
    ensures { FindsFree s result }
{
    let p = s.timers.iter().position(|t| matches!(t.life, Life::Free))?;
    Some(Place(p as u16))
}

// The link of a timer that goes in front of the list.
fn link_to(f: Option<Place>) -> Waiting
    ensures { result ≡ link_to f }
{
    match f {
        None => Waiting::Last,
        Some(q) => Waiting::Before(q),
    }
}
