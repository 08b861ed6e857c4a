// What the calls and the queries are made on: sets of one timer, and handles.
use heap::Place;
use state::{Handle, Life, Set, Timer, Waiting};

// The handle of a place with a use number.
pub fn handle(place: u16, uses: u32) -> Handle {
    Handle {
        place: Place(place),
        uses,
    }
}

// A set with one live timer of this word and deadline, which neither waits nor has an entry.
pub fn with_timer(word: u32, due: u64) -> Set {
    let mut s = state::fresh();
    s.timers[0] = Timer {
        life: Life::Live { word, due },
        waiting: Waiting::No,
        held: None,
        uses: 0,
    };
    s
}

// The set closed.
pub fn closed(s: Set) -> Set {
    Set { closed: true, ..s }
}

// The set after an add.
pub fn added(s: Set, due: u64) -> Set {
    timers::add(s, due).state
}
