// A binary heap of timer entries, least deadline first, from which an entry can be removed wherever it stands: the heap of
// heap.rs with fixed room. The entries lie in an array; a slab of slots says at which position each one stands, so that a slot
// number names its entry for as long as the entry is in the heap.
//
// `fresh`, `push`, `remove`, `pop` and `peek` are the calls; `consistent` tests a heap, `fault::first_fault` says what is wrong
// with it, and `height` bounds the swaps. Push, remove, pop and peek test the heap first and refuse an unsound one; `push_sound`,
// `remove_sound`, `pop_sound` and `peek_sound` do the work for a caller that has made the test itself. What an entry's place and
// generation mean is the caller's affair.
#![tactic(auto)]

pub mod fault;
mod walk;

ghost use Rattle.std.specs.Prelude.{◌≡◌, ◌<◌, ◌≤◌};
ghost use Rattle.heap.specs.Capacity.{cap};
ghost use Rattle.heap.specs.Rules.{taken_of, vacated_of, filled_of};
ghost use Rattle.heap.specs.declared.SlotState.TheVariants.{Full, Empty};
ghost use Rattle.heap.specs.Faults.{is_full, names};
ghost use Rattle.heap.specs.Sound.{Sound, SlotsIn};
ghost use Rattle.heap.specs.Promises.{Capacity, Before, Heights, Fresh, Consistent, Guards, Pushes, Removes, Pops, Peeks, PushesSound, RemovesSound, PopsSound, PeeksSound};

use crate::walk::Moved;
use refusals::Refusal;
use refusals::outcome::Outcome;

// How many entries a heap holds at most: `cap` of specs/Capacity.antt.
pub const CAP: usize = 256;

// A slot number: it names an entry, wherever the entry stands.
#[derive(Clone, Copy, PartialEq, Eq)]
pub struct Slot(pub u16);

// A position in the heap; the head is at 0.
#[derive(Clone, Copy, PartialEq, Eq)]
pub struct Pos(pub u16);

// A timer's place, which the heap only keeps.
#[derive(Clone, Copy, PartialEq, Eq, PartialOrd, Ord)]
pub struct Place(pub u16);

#[derive(Clone, Copy)]
pub struct Entry {
    pub at: u64,
    pub generation: u32,
    pub place: Place,
    pub slot: Slot,
}

#[derive(Clone, Copy)]
pub enum SlotState {
    // where the slot's entry stands
    Full(Pos),
    // the next free slot
    Empty(Slot),
}

#[derive(Clone, Copy)]
pub struct SlabSlot {
    pub state: SlotState,
}

impl SlabSlot {
    // The slot of an entry that stands at a position.
    fn full(at: Pos) -> SlabSlot
        ensures { result ≡ record { state = Full at } }
    {
        SlabSlot {
            state: SlotState::Full(at),
        }
    }

    // A slot with none, which names the next free one.
    fn empty(next: Slot) -> SlabSlot
        ensures { result ≡ record { state = Empty next } }
    {
        SlabSlot {
            state: SlotState::Empty(next),
        }
    }

    // Whether an entry stands in the slot.
    fn is_full(self) -> bool
        ensures { result ≡ is_full self.state }
    {
        matches!(self.state, SlotState::Full(_))
    }

    // Whether the slot is full and names the position.
    fn names(self, at: Pos) -> bool
        ensures { result ≡ names self.state at.0 }
    {
        matches!(self.state, SlotState::Full(pos) if pos == at)
    }
}

// Only the first `len` entries and the first `made` slots are in use.
#[derive(Clone, Copy)]
pub struct Heap {
    pub entries: [Entry; CAP],
    pub len: usize,
    pub slots: [SlabSlot; CAP],
    pub made: usize,
    pub free: Slot,
}

// What a push answers: the entry's slot, and the swaps that the push took.
#[derive(Clone, Copy)]
pub struct Pushed {
    pub slot: Slot,
    pub swaps: usize,
}

// What is taken off: the entry, and the swaps that its removal took.
#[derive(Clone, Copy)]
pub struct Removed {
    pub entry: Entry,
    pub swaps: usize,
}

// The capacity of the code is that of the rules.
pub fn capacity() -> usize
    ensures { Capacity result }
{
    CAP
}

// Whether an entry goes before another: strictly the earlier deadline. All comparing of entries is done here.
pub fn before(a: Entry, b: Entry) -> bool
    ensures { Before a b result }
{
    a.at < b.at
}

// The height of a heap of n entries: the floor of log2 n, which bounds the swaps of a walk. A heap of none has height 0.
pub fn height(n: usize) -> u32
    ensures { Heights n result }
{
    if n == 0 {
        return 0;
    }
    63 - (n as u64).leading_zeros()
}

// The empty heap.
pub fn fresh() -> Heap
    ensures { Fresh result }
{
    let e = Entry {
        at: 0,
        generation: 0,
        place: Place(0),
        slot: Slot(0),
    };
    Heap {
        entries: [e; CAP],
        len: 0,
        slots: [SlabSlot::empty(Slot(0)); CAP],
        made: 0,
        free: Slot(0),
    }
}

// Whether the heap is sound: the heap test.
pub fn consistent(h: Heap) -> bool
    ensures { Consistent h result }
{
    fault::first_fault(h).is_ok()
}

// Push, remove, pop and peek begin here: whether the call may be made, or why not.
fn guarded(h: Heap) -> Result<(), Refusal>
    ensures { Guards h result }
{
    fault::first_fault(h).map_err(Refusal::Unsound)
}

// Adds an entry. Refuses an unsound heap, then a full one.
pub fn push(h: Heap, at: u64, generation: u32, place: Place) -> Outcome<Heap, Pushed>
    ensures { Pushes h at generation place result }
{
    match guarded(h) {
        Ok(()) => push_sound(h, at, generation, place),
        Err(why) => Outcome::kept(h, why),
    }
}

// Removes the entry of a slot. Refuses an unsound heap, then a slot that was never made or is empty.
pub fn remove(h: Heap, slot: Slot) -> Outcome<Heap, Removed>
    ensures { Removes h slot result }
{
    match guarded(h) {
        Ok(()) => remove_sound(h, slot),
        Err(why) => Outcome::kept(h, why),
    }
}

// Takes the head off, if there is one. Refuses an unsound heap.
pub fn pop(h: Heap) -> Outcome<Heap, Option<Removed>>
    ensures { Pops h result }
{
    match guarded(h) {
        Ok(()) => pop_sound(h),
        Err(why) => Outcome::kept(h, why),
    }
}

// The head, if there is one. Refuses an unsound heap.
pub fn peek(h: Heap) -> Result<Option<Entry>, Refusal>
    ensures { Peeks h result }
{
    guarded(h)?;
    Ok(peek_sound(h))
}

// Adds an entry to a sound heap.
pub fn push_sound(h: Heap, at: u64, generation: u32, place: Place) -> Outcome<Heap, Pushed>
    requires { Sound h }
    ensures { PushesSound h at generation place result }
{
    let n = h.len;
    if CAP <= n {
        return Outcome::kept(h, Refusal::Full);
    }
    let slot = h.free;
    let e = Entry {
        at,
        generation,
        place,
        slot,
    };
    // one longer, with a hole at its end
    let mut w = taken(h);
    w.len = n + 1;
    let Moved { heap, swaps, .. } = walk::percolate_up(w, e, Pos(n as u16));
    Outcome::given(heap, Pushed { slot, swaps })
}

// Removes the entry of a slot from a sound heap.
pub fn remove_sound(h: Heap, slot: Slot) -> Outcome<Heap, Removed>
    requires { Sound h }
    ensures { RemovesSound h slot result }
{
    let s = slot.0 as usize;
    if h.made <= s {
        return Outcome::kept(h, Refusal::VacantSlot);
    }
    let SlotState::Full(pos) = h.slots[s].state else {
        return Outcome::kept(h, Refusal::VacantSlot);
    };
    let entry = h.entries[pos.0 as usize];
    let Moved { heap, swaps, .. } = filled(vacated(h, slot), pos);
    Outcome::given(heap, Removed { entry, swaps })
}

// Takes the head off a sound heap, if there is one.
pub fn pop_sound(h: Heap) -> Outcome<Heap, Option<Removed>>
    requires { Sound h }
    ensures { PopsSound h result }
{
    if h.len == 0 {
        return Outcome::given(h, None);
    }
    let entry = h.entries[0];
    let Moved { heap, swaps, .. } = filled(vacated(h, entry.slot), Pos(0));
    Outcome::given(heap, Some(Removed { entry, swaps }))
}

// The head of a sound heap, if there is one.
pub fn peek_sound(h: Heap) -> Option<Entry>
    requires { Sound h }
    ensures { PeeksSound h result }
{
    (0 < h.len).then_some(h.entries[0])
}

// The free head is taken: where it equals the number of slots so far, one more is made.
fn taken(mut h: Heap) -> Heap
    requires { (h.made ≤ cap) × (h.free.0 < cap) }
    ensures { result ≡ taken_of h }
{
    let s = h.free.0 as usize;
    if s == h.made {
        h.made += 1;
        h.free = Slot(h.made as u16);
    } else if let SlotState::Empty(next) = h.slots[s].state {
        h.free = next;
    }
    h
}

// The slot becomes the free head, naming the old one.
fn vacated(mut h: Heap, slot: Slot) -> Heap
    requires { slot.0 < cap }
    ensures { result ≡ vacated_of h slot }
{
    h.slots[slot.0 as usize] = SlabSlot::empty(h.free);
    h.free = slot;
    h
}

// The last entry moves into the hole at a position, and from there up or down.
fn filled(mut h: Heap, pos: Pos) -> Moved
    requires pos_lt_len { pos.0 < h.len }
    requires slots_in { SlotsIn h }
    ensures { result ≡ filled_of h pos.0 }
{
    let last = h.len - 1;
    let p = pos.0 as usize;
    let gone = h.entries[p];
    let e = h.entries[last];
    h.len = last;
    if p == last {
        Moved {
            heap: h,
            at: pos,
            swaps: 0,
        }
    } else if before(e, gone) {
        walk::percolate_up(h, e, pos)
    } else {
        walk::percolate_down(h, e, pos)
    }
}
