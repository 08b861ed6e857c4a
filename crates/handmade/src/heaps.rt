// Heaps built by hand. They have the names that they have in specs/States.antt of the crate `promises`.
ghost use Rattle.handmade.specs.Promises.{Filled, Emptied, Entered, Freed, Slabbed, Holding, HoldingTwo, One, Two, Vacated, LeftOver, FullHeap, OneMore, OneSlotMore};

use heap::{Entry, Heap, Place, Pos, SlabSlot, Slot, SlotState};

// A slot that is full with a position.
pub fn full(i: u16) -> SlabSlot
    ensures { Filled i result }
{
    SlabSlot {
        state: SlotState::Full(Pos(i)),
    }
}

// A slot that is empty and names the next free one.
pub fn empty(n: u16) -> SlabSlot
    ensures { Emptied n result }
{
    SlabSlot {
        state: SlotState::Empty(Slot(n)),
    }
}

// An entry of generation 0.
pub fn entry(at: u64, place: u16, slot: u16) -> Entry
    ensures { Entered at place slot result }
{
    Entry {
        at,
        generation: 0,
        place: Place(place),
        slot: Slot(slot),
    }
}

// The heap with another free head.
pub fn freed(h: Heap, n: u16) -> Heap
    ensures { Freed h n result }
{
    Heap { free: Slot(n), ..h }
}

// A heap of no entry and these two slots, of which so many are made, with this free head.
pub fn slab(x: SlabSlot, y: SlabSlot, made: usize, free: u16) -> Heap
    ensures { Slabbed x y made free result }
{
    let mut h = freed(heap::fresh(), free);
    h.slots[0] = x;
    h.slots[1] = y;
    h.made = made;
    h
}

// The heap with this one entry.
pub fn holding(mut h: Heap, e: Entry) -> Heap
    ensures { Holding h e result }
{
    h.entries[0] = e;
    h.len = 1;
    h
}

// The heap with these two entries.
pub fn holding_two(mut h: Heap, e: Entry, f: Entry) -> Heap
    ensures { HoldingTwo h e f result }
{
    h.entries[0] = e;
    h.entries[1] = f;
    h.len = 2;
    h
}

// A heap of one entry, in slot 0.
pub fn one(e: Entry) -> Heap
    ensures { One e result }
{
    holding(slab(full(0), empty(0), 1, 1), e)
}

// A heap of two entries, in the slots 0 and 1.
pub fn two(e: Entry, f: Entry) -> Heap
    ensures { Two e f result }
{
    holding_two(slab(full(0), full(1), 2, 2), e, f)
}

// A heap of no entry, whose one slot is empty.
pub fn vacated() -> Heap
    ensures { Vacated result }
{
    slab(empty(1), empty(0), 1, 0)
}

// A heap of no entry and no slot, past whose counts there are both: a slot that is full, and an entry of place 0.
pub fn left_over() -> Heap
    ensures { LeftOver result }
{
    Heap {
        len: 0,
        made: 0,
        ..freed(one(entry(5, 0, 0)), 0)
    }
}

// A full heap: entries of one deadline, each in the slot and of the place that have the number of its position.
pub fn full_heap() -> Heap
    ensures { FullHeap result }
{
    let mut h = heap::fresh();
    for i in 0..heap::CAP {
        h.entries[i] = entry(5, i as u16, i as u16);
        h.slots[i] = full(i as u16);
    }
    h.len = heap::CAP;
    h.made = heap::CAP;
    freed(h, heap::CAP as u16)
}

// A heap in which an entry more is counted.
pub fn with_one_more_entry(h: Heap) -> Heap
    ensures { OneMore h result }
{
    Heap {
        len: heap::CAP + 1,
        ..h
    }
}

// Every slot empty, each naming the one before it, and one slot more counted than there is room for. The first names that count, and
// the free head is the last.
pub fn one_slot_more() -> Heap
    ensures { OneSlotMore result }
{
    let mut h = heap::fresh();
    h.slots[0] = empty((heap::CAP + 1) as u16);
    for i in 0..heap::CAP - 1 {
        h.slots[i + 1] = empty(i as u16);
    }
    h.made = heap::CAP + 1;
    freed(h, (heap::CAP - 1) as u16)
}
