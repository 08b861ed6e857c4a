// The calls on a heap used alone: an unsound one is refused with 1, a push onto a full one with 4, the removal of a slot that was never
// made or is empty with 11. An empty heap is no reason for a refusal.
use handmade::heaps::{entry, full_heap, one, two, vacated, with_one_more_entry};
use handmade::tell::answer;
use heap::{Heap, Place, Pushed, Slot};
use refusals::Refusal;
use std::io;

// What a push of an entry of deadline 5 answers.
fn push(h: Heap) -> Result<Pushed, Refusal> {
    heap::push(h, 5, 0, Place(0)).answer
}

// Every call on the heaps of row 8: a child as late as its parent is sound, and an earlier one is not.
fn ordered(rt: &impl Print) -> io::Result<()> {
    let sound = two(entry(5, 0, 0), entry(5, 1, 1));
    let unsound = two(entry(5, 0, 0), entry(4, 1, 1));
    answer(rt, b"a heap of deadlines 5 and 5: push ", push(sound))?;
    answer(
        rt,
        b"row 8, clause 15, a heap of deadlines 5 and 4: push ",
        push(unsound),
    )?;
    answer(
        rt,
        b"a heap of deadlines 5 and 5: remove slot 0 ",
        heap::remove(sound, Slot(0)).answer,
    )?;
    answer(
        rt,
        b"row 8, clause 15, a heap of deadlines 5 and 4: remove slot 0 ",
        heap::remove(unsound, Slot(0)).answer,
    )?;
    answer(
        rt,
        b"a heap of deadlines 5 and 5: pop ",
        heap::pop(sound).answer,
    )?;
    answer(
        rt,
        b"row 8, clause 15, a heap of deadlines 5 and 4: pop ",
        heap::pop(unsound).answer,
    )?;
    answer(rt, b"a heap of deadlines 5 and 5: peek ", heap::peek(sound))?;
    answer(
        rt,
        b"row 8, clause 15, a heap of deadlines 5 and 4: peek ",
        heap::peek(unsound),
    )
}

// A full heap, and the same with an entry more counted than it has room for.
fn filled(rt: &impl Print) -> io::Result<()> {
    answer(rt, b"a full heap: push ", push(full_heap()))?;
    answer(
        rt,
        b"row 1, clauses 11 and 13, an entry too many: push ",
        push(with_one_more_entry(full_heap())),
    )
}

// Slots with no entry, and heaps with none.
fn vacant(rt: &impl Print) -> io::Result<()> {
    let h = one(entry(5, 0, 0));
    answer(
        rt,
        b"a heap of one slot: remove slot 1 ",
        heap::remove(h, Slot(1)).answer,
    )?;
    answer(
        rt,
        b"a heap of one slot: remove slot 65535 ",
        heap::remove(h, Slot(65_535)).answer,
    )?;
    answer(
        rt,
        b"a heap whose one slot is empty: remove slot 0 ",
        heap::remove(vacated(), Slot(0)).answer,
    )?;
    answer(
        rt,
        b"a heap whose one slot is empty: pop ",
        heap::pop(vacated()).answer,
    )?;
    answer(
        rt,
        b"a heap whose one slot is empty: peek ",
        heap::peek(vacated()),
    )
}

// All of them.
pub fn run(rt: &impl Print) -> io::Result<()> {
    ordered(rt)?;
    filled(rt)?;
    vacant(rt)
}
