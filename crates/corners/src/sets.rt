// Timers and sets built by hand. They have the names that they have in specs/States.antt of the crate `promises`.
use heap::{Heap, Place, Slot};
use state::{Life, Set, Timer, Waiting};

// A timer with use number 0.
pub fn timer(life: Life, waiting: Waiting, held: Option<Slot>) -> Timer {
    Timer {
        life,
        waiting,
        held,
        uses: 0,
    }
}

// A live timer with deadline 5.
pub fn live(waiting: Waiting, held: Option<Slot>) -> Timer {
    timer(Life::Live { word: 0, due: 5 }, waiting, held)
}

// A live timer that does not wait and names this slot.
pub fn in_slot(q: u16) -> Timer {
    live(Waiting::No, Some(Slot(q)))
}

// A live timer that does not wait and names no slot.
pub fn apart() -> Timer {
    live(Waiting::No, None)
}

// A live timer that waits, the last of the list, and names no slot.
pub fn waits() -> Timer {
    live(Waiting::Last, None)
}

// A free place.
pub fn free() -> Timer {
    timer(Life::Free, Waiting::No, None)
}

// An open set with this heap: every place is free, and nobody is in the list.
pub fn bare(h: Heap) -> Set {
    Set {
        heap: h,
        ..state::fresh()
    }
}

// An open set with this heap and this timer at place 0. Nobody is in the list.
pub fn open(h: Heap, t: Timer) -> Set {
    let mut s = bare(h);
    s.timers[0] = t;
    s
}

// The same, with another timer at place 1.
pub fn open_two(h: Heap, t: Timer, u: Timer) -> Set {
    let mut s = open(h, t);
    s.timers[1] = u;
    s
}

// The same with no entry and no slot.
pub fn two(t: Timer, u: Timer) -> Set {
    open_two(heap::fresh(), t, u)
}

// An open set with this timer at place 0, and no entry and no slot.
pub fn one(t: Timer) -> Set {
    open(heap::fresh(), t)
}

// The set with this place at the head of the list.
pub fn from(s: Set, p: u16) -> Set {
    Set {
        first: Some(Place(p)),
        ..s
    }
}

// The set closed.
pub fn closed(s: Set) -> Set {
    Set { closed: true, ..s }
}

// An open set whose every place has a live timer, in the slot that has the number of its place.
pub fn all_in_slots(h: Heap) -> Set {
    let mut s = bare(h);
    for (p, t) in s.timers.iter_mut().enumerate() {
        *t = in_slot(p as u16);
    }
    s
}

// An open set with this timer at the last place.
pub fn at_last(h: Heap, t: Timer) -> Set {
    let mut s = bare(h);
    s.timers[heap::CAP - 1] = t;
    s
}
