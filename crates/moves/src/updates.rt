// The drain: the waiting updates are made in the order of the list, the newest first.
ghost use Rattle.std.specs.Prelude.{◌≡◌};
ghost use Rattle.heap.specs.Sound.{Sound};
ghost use Rattle.moves.specs.Rules.{dropped_of, held_by, freed_of, settled_of};
ghost use Rattle.moves.specs.Promises.{Settles};
ghost use Rattle.heap.specs.Calls.{said_push};

use heap::{Heap, Place, Pushed, Slot};
use refusals::Refusal;
use state::{Life, Set, Timer, Waiting};

// Every update is made.
#[inline(never)]
pub fn drained(mut s: Set) -> Set
    requires { Sound s.heap }
    ensures { Settles s result }
{
    for _ in 0..heap::CAP {
        let Some(place) = s.first else {
            break;
        };
        s = settled(s, place);
    }
    s
}

// The timer at a place, first in the list, is taken off it and its update made. (A place out of range ends the list.)
fn settled(mut s: Set, place: Place) -> Set
    requires { Sound s.heap }
    ensures { result ≡ settled_of s place.0 }
{
    let p = place.0 as usize;
    if heap::CAP <= p {
        s.first = None;
        return s;
    }
    let t = s.timers[p];
    s.first = state::fault::after(t.waiting);
    match t.life {
        Life::Live { word, due } => {
            let pushed = heap::push_sound(
                dropped(s.heap, t.held),
                due,
                word::generation(word),
                place,
            );
            s.heap = pushed.state;
            s.timers[p] = Timer {
                waiting: Waiting::No,
                held: held_by(pushed.answer),
                ..t
            };
        }
        Life::Cancelled { .. } => {
            s.heap = dropped(s.heap, t.held);
            s.timers[p] = freed(t.uses);
        }
        Life::Free | Life::Retired => {
            s.timers[p] = Timer {
                waiting: Waiting::No,
                ..t
            };
        }
    }
    s
}

// The heap without the entry that a timer holds.
fn dropped(h: Heap, held: Option<Slot>) -> Heap
    requires { Sound h }
    ensures { result ≡ dropped_of h held }
{
    match held {
        None => h,
        Some(slot) => heap::remove_sound(h, slot).state,
    }
}

// The slot that a push answers.
fn held_by(answer: Result<Pushed, Refusal>) -> Option<Slot>
    ensures { result ≡ held_by (said_push answer) }
{
    answer.ok().map(|pushed| pushed.slot)
}

// A cancelled timer's place, freed: nothing is left but the use number, one higher; retired where the numbers are used up.
fn freed(uses: u32) -> Timer
    ensures { result ≡ freed_of uses }
{
    let (life, uses) = match uses.checked_add(1) {
        Some(next) => (Life::Free, next),
        None => (Life::Retired, uses),
    };
    Timer {
        life,
        waiting: Waiting::No,
        held: None,
        uses,
    }
}
