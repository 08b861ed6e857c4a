// The set of timers as it is kept: its places, the heap of entries, the waiting list and the closed mark. This crate has the
// types, the fresh set, the test of soundness, and the word of a handle with the way back; the calls are in `timers`.
//
// A place is one struct whose enums leave nothing over: only a live timer has a deadline, and a free place has no word. The
// waiting list runs through the places: `first` names the place at its head, and each waiting timer the next one.
#![tactic(auto)]

pub mod fault;

ghost use Rattle.state.specs.Promises.{Fresh, IsSound, Words, Names};

use heap::{Heap, Place, Slot};

// Whose place it is.
#[derive(Clone, Copy)]
pub enum Life {
    // nobody's: an add may take it
    Free,
    // a timer's, with its state word and its deadline
    Live { word: u32, due: u64 },
    // a cancelled timer's, until a drain reaches it
    Cancelled { word: u32 },
    // nobody's ever again: its use numbers are used up
    Retired,
}

// Whether the timer is in the waiting list, and who comes after it there.
#[derive(Clone, Copy, PartialEq, Eq)]
pub enum Waiting {
    No,
    Last,
    Before(Place),
}

#[derive(Clone, Copy)]
pub struct Timer {
    pub life: Life,
    pub waiting: Waiting,
    // the heap slot of the timer's entry
    pub held: Option<Slot>,
    pub uses: u32,
}

#[derive(Clone, Copy)]
pub struct Set {
    pub heap: Heap,
    pub timers: [Timer; heap::CAP],
    // the head of the waiting list
    pub first: Option<Place>,
    pub closed: bool,
}

// A timer's handle: its place, and the place's use number when it was added.
#[derive(Clone, Copy, PartialEq, Eq)]
pub struct Handle {
    pub place: Place,
    pub uses: u32,
}

// The fresh set: open, with every place free.
pub fn fresh() -> Set
    ensures { Fresh result }
{
    let unused = Timer {
        life: Life::Free,
        waiting: Waiting::No,
        held: None,
        uses: 0,
    };
    Set {
        heap: heap::fresh(),
        timers: [unused; heap::CAP],
        first: None,
        closed: false,
    }
}

// Whether the set is sound.
pub fn sound(s: Set) -> bool
    ensures { IsSound s result }
{
    fault::first_fault(s).is_ok()
}

// A handle as one word: the use number in the upper 32 bits, then 16 zero bits, then the place.
pub fn handle_word(handle: Handle) -> u64
    ensures { Words handle result }
{
    ((handle.uses as u64) << 32) | (handle.place.0 as u64)
}

// The way back: the handle whose word this is, or none where one of the 16 zero bits is set.
pub fn handle_of(word: u64) -> Option<Handle>
    ensures { Names word result }
{
    if (word >> 16) & 0xffff != 0 {
        return None;
    }
    Some(Handle {
        place: Place((word & 0xffff) as u16),
        uses: (word >> 32) as u32,
    })
}
