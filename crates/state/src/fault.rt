// The test of soundness: what is wrong with a set, as scans that stop at the first fault; that of the heap entries looks for the
// lowest place number among those at fault. It is total on any value.
ghost use Rattle.std.specs.Prelude.{◌≡◌, ◌&&◌};
ghost use Rattle.theory.specs.Counting.{count};
ghost use Rattle.heap.specs.Capacity.{cap};
ghost use Rattle.heap.specs.Sound as HeapSound;
ghost use Rattle.state.specs.Faults.{waits_at, list_scan, lower as lowerOf, idle_in, life_ok, closed_ok, entry_fits, first_place, entry_scan, walked, scanned};
ghost use Rattle.state.specs.Promises.{Faults, Waits, Follows};

use crate::{Life, Set, Timer, Waiting};
use heap::{Entry, Place, Slot, SlotState};
use refusals::fault::Fault;

// How many generations there are.
const GENERATIONS: u32 = 1 << 30;

// The first fault of a set, in the order of the kinds.
pub fn first_fault(s: Set) -> Result<(), Fault>
    ensures { Faults s result }
{
    heap::fault::first_fault(s.heap)?;
    let n = waiting_count(s);
    if let Some(step) = list_scan(s, n) {
        return Err(Fault::List(step as u64));
    }
    match lower(place_scan(s), entry_scan(s)) {
        None => Ok(()),
        Some(place) => Err(Fault::Place(place.0 as u64)),
    }
}

// Whether a timer is in the waiting list.
pub fn waits(w: Waiting) -> bool
    ensures { Waits w result }
{
    w != Waiting::No
}

// The head of the list once a timer that waits so is taken off it.
pub fn after(w: Waiting) -> Option<Place>
    ensures { Follows w result }
{
    match w {
        Waiting::No | Waiting::Last => None,
        Waiting::Before(next) => Some(next),
    }
}

// How many timers wait.
fn waiting_count(s: Set) -> usize
    ensures { result ≡ count (waits_at s) cap }
{
    s.timers.iter().filter(|t| waits(t.waiting)).count()
}

// The first step at which the waiting list meets a place out of range, a timer that does not wait or one that was met before, ends
// too soon, or goes on too long, where n wait. It marks the places that it meets: a loop is noticed where it closes. The caller counts
// the timers, so that the copies of the set for the count and for the walk do not lie on the stack at once.
fn list_scan(s: Set, n: usize) -> Option<usize>
    requires { n ≡ count (waits_at s) cap }
    ensures { walked result ≡ list_scan s }
{
    let mut met = [false; heap::CAP];
    let mut at = s.first;
    for step in 0..n {
        let Some(place) = at else {
            return Some(step);
        };
        let p = place.0 as usize;
        if heap::CAP <= p || met[p] || !waits(s.timers[p].waiting) {
            return Some(step);
        }
        met[p] = true;
        at = after(s.timers[p].waiting);
    }
    at.map(|_| n)
}

// The lower of two places at fault.
fn lower(a: Option<Place>, b: Option<Place>) -> Option<Place>
    ensures { scanned result ≡ lowerOf (scanned a) (scanned b) }
{
    match (a, b) {
        (Some(p), Some(q)) => Some(p.min(q)),
        _ => a.or(b),
    }
}

// Whether a timer neither waits nor names a slot.
fn idle(t: Timer) -> bool
    ensures { result ≡ idle_in t }
{
    !waits(t.waiting) && t.held.is_none()
}

// Whether a timer's parts go together, by whose place it is.
fn life_ok(closed: bool, t: Timer) -> bool
    ensures { result ≡ life_ok closed t t.life }
{
    match t.life {
        Life::Free | Life::Retired => idle(t),
        Life::Live { word, .. } => closed || !word::invalid(word),
        Life::Cancelled { word } => closed || !word::invalid(word) && waits(t.waiting),
    }
}

// Whether a timer's parts go together, and it neither waits nor names a slot where the set is closed.
fn timer_ok(closed: bool, t: Timer) -> bool
    ensures { result ≡ life_ok closed t t.life && closed_ok closed t }
{
    life_ok(closed, t) && (!closed || idle(t))
}

// The first place whose timer's parts do not go together, that waits or names a slot in a closed set, or that names a slot whose
// entry is not its own.
fn place_scan(s: Set) -> Option<Place>
    requires { HeapSound.Sound s.heap }
    ensures { scanned result ≡ first_place s }
{
    for (p, t) in s.timers.iter().enumerate() {
        let place = Place(p as u16);
        if !timer_ok(s.closed, *t) {
            return Some(place);
        }
        if let Some(slot) = t.held {
            let q = slot.0 as usize;
            if s.heap.made <= q {
                return Some(place);
            }
            let state = s.heap.slots[q].state;
            let SlotState::Full(pos) = state else {
                return Some(place);
            };
            let e = s.heap.entries[pos.0 as usize];
            if e.place != place {
                return Some(place);
            }
        }
    }
    None
}

// Whether an entry's generation is in range, and its place, which holds that, names its slot.
fn entry_ok(e: Entry, held: Option<Slot>) -> bool
    ensures { result ≡ entry_fits e held }
{
    e.generation < GENERATIONS && held == Some(e.slot)
}

// The lowest place number of an entry that holds a place or a generation out of range, or whose place does not name its slot.
fn entry_scan(s: Set) -> Option<Place>
    requires { HeapSound.Sound s.heap }
    ensures { scanned result ≡ entry_scan s s.heap.len }
{
    let mut low = None;
    for e in &s.heap.entries[..s.heap.len] {
        let p = e.place.0 as usize;
        if heap::CAP <= p || !entry_ok(*e, s.timers[p].held) {
            low = lower(low, Some(e.place));
        }
    }
    low
}
