// Unsound sets, and a next wake of each, which is refused with 1 and the first fault. A row is that of specs/States.antt in the crate
// `promises`, of whose two sets it is the second, and a clause that of specs/Clauses.antt there: the set breaks the clauses that are
// named, and no other. Three sets have no row there: each goes wrong at a step of the test that no row comes to. Where the heap is at
// fault, a peek of it is made too.
use crate::sets;
use crate::sets::{apart, closed, from, in_slot, open, open_two, timer, waits};
use handmade::heaps::{empty, entry, freed, full, holding, slab, vacated};
use handmade::{heaps, tell};
use heap::{Heap, Place, Slot};
use state::{Life, Set, Waiting};
use std::io;

// What the set is, and what a next wake of it answers.
pub fn wake(rt: &impl Print, what: &[u8], s: Set) -> io::Result<()> {
    tell::answer(rt, what, timers::next_wake(s).answer)
}

// The same of a set whose heap is at fault, and what a peek of that heap, used alone, answers.
fn peek(rt: &impl Print, what: &[u8], s: Set) -> io::Result<()> {
    wake(rt, what, s)?;
    tell::answer(rt, b"its heap alone: ", heap::peek(s.heap))
}

// One entry, of place 0 in slot 0.
fn own() -> Heap {
    heaps::one(entry(5, 0, 0))
}

// The first place that there is not.
fn past() -> u16 {
    heap::CAP as u16
}

// Count.
fn counts(rt: &impl Print) -> io::Result<()> {
    peek(
        rt,
        b"row 1, clauses 11 and 13, an entry too many: ",
        sets::all_in_slots(heaps::with_one_more_entry(heaps::full_heap())),
    )?;
    peek(
        rt,
        b"row 2, clause 12, a slot too many: ",
        sets::bare(heaps::one_slot_more()),
    )?;
    peek(
        rt,
        b"row 3, clause 13, a full slot without an entry: ",
        sets::bare(slab(full(0), empty(0), 1, 1)),
    )?;
    peek(
        rt,
        b"row 4, clauses 13 and 14, an entry without a full slot: ",
        open(holding(vacated(), entry(5, 0, 0)), apart()),
    )
}

// Position.
fn positions(rt: &impl Print) -> io::Result<()> {
    peek(
        rt,
        b"row 5, clause 14, an entry whose slot was never made: ",
        open(
            holding(slab(full(0), full(0), 1, 1), entry(5, 0, 1)),
            in_slot(0),
        ),
    )?;
    peek(
        rt,
        b"row 6, clause 14, an entry whose slot is empty: ",
        open(
            holding(slab(full(0), empty(2), 2, 1), entry(5, 0, 1)),
            in_slot(0),
        ),
    )?;
    peek(
        rt,
        b"row 7, clause 14, entries whose slots name each other's position: ",
        open_two(
            heaps::holding_two(slab(full(1), full(0), 2, 2), entry(5, 0, 0), entry(5, 1, 1)),
            in_slot(1),
            in_slot(0),
        ),
    )
}

// Order.
fn orders(rt: &impl Print) -> io::Result<()> {
    peek(
        rt,
        b"row 8, clause 15, a child before its parent: ",
        open_two(
            heaps::two(entry(5, 0, 0), entry(4, 1, 1)),
            in_slot(0),
            in_slot(1),
        ),
    )
}

// Free chain. Past the slots of row 12 one stands that would do.
fn chains(rt: &impl Print) -> io::Result<()> {
    peek(
        rt,
        b"row 11, clause 16, a free head past the slots: ",
        sets::bare(freed(heap::fresh(), 1)),
    )?;
    peek(
        rt,
        b"row 12, clause 16, an empty slot not met: ",
        sets::bare(slab(empty(1), empty(1), 1, 1)),
    )?;
    peek(
        rt,
        b"row 14, clause 16, a chain that loops: ",
        sets::bare(slab(empty(0), empty(0), 1, 0)),
    )?;
    peek(
        rt,
        b"row 16, clause 16, a free head that is a full slot: ",
        open(freed(own(), 0), in_slot(0)),
    )?;
    peek(
        rt,
        b"no row, clause 16, the same, and an empty slot not met: ",
        open(
            holding(slab(full(0), empty(2), 2, 0), entry(5, 0, 0)),
            in_slot(0),
        ),
    )
}

// Slots: a timer that names one.
fn slots(rt: &impl Print) -> io::Result<()> {
    wake(
        rt,
        b"row 18, clause 21, a timer that names a slot never made: ",
        open(heaps::left_over(), in_slot(0)),
    )?;
    wake(
        rt,
        b"row 19, clause 21, a timer that names an empty slot: ",
        open(vacated(), in_slot(0)),
    )?;
    wake(
        rt,
        b"row 20, clause 21, a timer that names the slot of another's entry: ",
        open_two(heaps::one(entry(5, 1, 0)), in_slot(0), in_slot(0)),
    )?;
    wake(
        rt,
        b"row 22, clause 21, a free place that names a slot: ",
        open(vacated(), timer(Life::Free, Waiting::No, Some(Slot(0)))),
    )?;
    wake(
        rt,
        b"row 26, clause 21, a closed set that names a slot: ",
        closed(open(vacated(), in_slot(0))),
    )
}

// Slots: an entry that its timer does not name.
fn entries(rt: &impl Print) -> io::Result<()> {
    wake(
        rt,
        b"row 28, clause 22, an entry whose timer names no slot: ",
        open(own(), apart()),
    )?;
    wake(
        rt,
        b"row 30, clause 22, two entries of one timer: ",
        open_two(
            heaps::two(entry(5, 0, 0), entry(5, 0, 1)),
            in_slot(0),
            apart(),
        ),
    )
}

// List: a timer that waits and is not in it.
fn unlisted(rt: &impl Print) -> io::Result<()> {
    wake(
        rt,
        b"row 32, clause 31, a timer that waits, and no list: ",
        sets::one(waits()),
    )?;
    wake(
        rt,
        b"row 34, clause 31, a list that ends before a timer that waits: ",
        from(sets::two(waits(), waits()), 0),
    )?;
    wake(
        rt,
        b"no row, clauses 31 and 32, a list of one that does not wait, and another that does: ",
        from(sets::two(apart(), waits()), 0),
    )?;
    wake(
        rt,
        b"no row, clauses 31, 32 and 82, a list of a place out of range, and a timer that waits: ",
        from(sets::one(waits()), past()),
    )
}

// List: what should not be in it.
fn listed(rt: &impl Print) -> io::Result<()> {
    wake(
        rt,
        b"row 37, clause 32, a list of one that does not wait: ",
        from(sets::one(apart()), 0),
    )?;
    wake(
        rt,
        b"row 39, clauses 32 and 82, a list of a place out of range: ",
        from(state::fresh(), past()),
    )?;
    wake(
        rt,
        b"row 41, clause 33, a list that loops: ",
        from(sets::one(sets::live(Waiting::Before(Place(0)), None)), 0),
    )
}

// Closing.
fn closings(rt: &impl Print) -> io::Result<()> {
    wake(
        rt,
        b"row 43, clause 41, an invalid mark on a live timer of an open set: ",
        sets::one(timer(Life::Live { word: 2, due: 5 }, Waiting::No, None)),
    )?;
    wake(
        rt,
        b"row 49, clause 42, an invalid mark on a cancelled one: ",
        from(
            sets::one(timer(Life::Cancelled { word: 2 }, Waiting::Last, None)),
            0,
        ),
    )?;
    wake(
        rt,
        b"row 51, clause 43, a closed set with a timer in its list: ",
        closed(from(sets::one(waits()), 0)),
    )?;
    wake(
        rt,
        b"row 53, clause 44, a closed set with an entry: ",
        closed(open(own(), in_slot(0))),
    )
}

// Places out of use.
fn unused(rt: &impl Print) -> io::Result<()> {
    wake(
        rt,
        b"row 55, clause 51, an entry of a free place: ",
        open(own(), timer(Life::Free, Waiting::No, Some(Slot(0)))),
    )?;
    wake(
        rt,
        b"row 56, clause 52, an entry of a retired place: ",
        open(own(), timer(Life::Retired, Waiting::No, Some(Slot(0)))),
    )?;
    wake(
        rt,
        b"row 60, clause 53, a free place in the list: ",
        from(sets::one(timer(Life::Free, Waiting::Last, None)), 0),
    )?;
    wake(
        rt,
        b"row 61, clause 54, a retired place in the list: ",
        from(sets::one(timer(Life::Retired, Waiting::Last, None)), 0),
    )
}

// Cancelled.
fn cancels(rt: &impl Print) -> io::Result<()> {
    wake(
        rt,
        b"row 65, clause 61, a cancelled timer that does not wait: ",
        sets::one(timer(Life::Cancelled { word: 0 }, Waiting::No, None)),
    )
}

// Ranges.
fn ranges(rt: &impl Print) -> io::Result<()> {
    let mut e = entry(5, 0, 0);
    e.generation = 1_073_741_824;
    wake(
        rt,
        b"row 70, clause 81, an entry of generation 2^30: ",
        open(heaps::one(e), in_slot(0)),
    )?;
    wake(
        rt,
        b"row 71, clause 82, an entry of a place out of range: ",
        sets::at_last(heaps::one(entry(5, past(), 0)), apart()),
    )
}

// All of them.
pub fn run(rt: &impl Print) -> io::Result<()> {
    counts(rt)?;
    positions(rt)?;
    orders(rt)?;
    chains(rt)?;
    slots(rt)?;
    entries(rt)?;
    unlisted(rt)?;
    listed(rt)?;
    closings(rt)?;
    unused(rt)?;
    cancels(rt)?;
    ranges(rt)
}
