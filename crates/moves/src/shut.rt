// The close: the list is emptied, then the heap by pops, and every timer met in either is marked invalid.
ghost use Rattle.std.specs.Prelude.{◌≡◌};
ghost use Rattle.heap.specs.Sound.{Sound};
ghost use Rattle.heap.specs.Capacity.{cap};
ghost use Rattle.moves.specs.Rules.{marked_life, unlist_from, empty_from};
ghost use Rattle.moves.specs.Promises.{Shuts};

use state::{Life, Set, Timer, Waiting};

// The set closed.
pub fn closed(s: Set) -> Set
    requires { Sound s.heap }
    ensures { Shuts s result }
{
    Set {
        closed: true,
        ..emptied(unlisted(s))
    }
}

// Every timer is taken off the list, marked, and forgets its slot. (A place out of range ends the list.)
fn unlisted(mut s: Set) -> Set
    ensures { result ≡ unlist_from cap s }
{
    for _ in 0..heap::CAP {
        let Some(place) = s.first else {
            break;
        };
        let p = place.0 as usize;
        if heap::CAP <= p {
            s.first = None;
            break;
        }
        let t = s.timers[p];
        s.first = state::fault::after(t.waiting);
        s.timers[p] = Timer {
            life: marked(t.life),
            waiting: Waiting::No,
            held: None,
            ..t
        };
    }
    s
}

// Every entry is popped, and its timer is marked and forgets its slot.
fn emptied(mut s: Set) -> Set
    requires { Sound s.heap }
    ensures { result ≡ empty_from s.heap.len s }
{
    for _ in 0..s.heap.len {
        let e = s.heap.entries[0];
        s.heap = heap::pop_sound(s.heap).state;
        let p = e.place.0 as usize;
        if p < heap::CAP {
            let t = s.timers[p];
            s.timers[p] = Timer {
                life: marked(t.life),
                held: None,
                ..t
            };
        }
    }
    s
}

// The invalid mark is set.
fn marked(life: Life) -> Life
    ensures { result ≡ marked_life life }
{
    match life {
        Life::Live { word, due } => Life::Live {
            word: word::with_invalid(word),
            due,
        },
        Life::Cancelled { word } => Life::Cancelled {
            word: word::with_invalid(word),
        },
        Life::Free | Life::Retired => life,
    }
}
