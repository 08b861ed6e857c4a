// Which fault is named: of each kind a state with that fault alone, one with a fault of a later kind too, and one with two of the
// kind; loops that close early and late; and what falls under a place. Above each set stands why its fault is the one. A next wake
// is asked.
use crate::sets;
use crate::sets::{apart, bare, closed, from, in_slot, live, open_two, timer, waits};
use crate::unsound::wake;
use handmade::heaps;
use handmade::heaps::{empty, entry, freed, full, slab};
use heap::{Entry, Heap, Place, SlabSlot};
use state::{Life, Set, Timer, Waiting};
use std::io;

// The set with this timer at place p.
fn with_timer(mut s: Set, p: usize, t: Timer) -> Set {
    if let Some(place) = s.timers.get_mut(p) {
        *place = t;
    }
    s
}

// A live timer with the invalid mark, which no timer of an open set has.
fn invalid(waiting: Waiting) -> Timer {
    timer(Life::Live { word: 2, due: 5 }, waiting, None)
}

// A live timer that waits before this place.
fn before(p: u16) -> Timer {
    live(Waiting::Before(Place(p)), None)
}

// A heap of no entry and these three slots, with this free head.
fn three_slots(x: SlabSlot, y: SlabSlot, z: SlabSlot, free: u16) -> Heap {
    let mut h = slab(x, y, 3, free);
    h.slots[2] = z;
    h
}

// A heap of these three entries, for the slots 0, 1 and 2, which are full with the positions 0, 1 and 2.
fn three(e: Entry, f: Entry, g: Entry) -> Heap {
    let mut h = heaps::holding_two(three_slots(full(0), full(1), full(2), 3), e, f);
    h.entries[2] = g;
    h.len = 3;
    h
}

// The timers of the places 0, 1 and 2 in the slots of those numbers.
fn in_three(h: Heap) -> Set {
    with_timer(open_two(h, in_slot(0), in_slot(1)), 2, in_slot(2))
}

// Count, which is always at 0.
fn counts(rt: &impl Print) -> io::Result<()> {
    // a full slot, and no entry
    wake(rt, b"a count: ", bare(slab(full(0), empty(0), 1, 1)))?;
    // the same, and at step 0 of the list a place that does not wait: a count is tried first
    wake(
        rt,
        b"a count, and the list: ",
        from(bare(slab(full(0), empty(0), 1, 1)), 0),
    )?;
    // an entry more than there is room for, and a slot
    wake(
        rt,
        b"two counts: ",
        bare(heaps::with_one_more_entry(heaps::one_slot_more())),
    )
}

// Position: that of the entry.
fn positions(rt: &impl Print) -> io::Result<()> {
    // the entry at position 1 says slot 0, as that at position 0 does, and the slot is full with position 0. Place 0, which both hold,
    // names slot 0, so no place is at fault
    wake(
        rt,
        b"a position: ",
        open_two(
            heaps::holding_two(slab(full(0), full(2), 2, 2), entry(5, 0, 0), entry(5, 0, 0)),
            in_slot(0),
            apart(),
        ),
    )?;
    // the entry at position 2 says slot 0, which is full with position 0, and at position 1 a child is before its parent: every position
    // is tried before any order
    wake(
        rt,
        b"a position, and an order before it: ",
        in_three(three(entry(5, 0, 0), entry(4, 1, 1), entry(5, 2, 0))),
    )?;
    // the entries at the positions 1 and 2 say each other's slot: 1 is lower
    wake(
        rt,
        b"two positions: ",
        in_three(three(entry(5, 0, 0), entry(5, 1, 2), entry(5, 2, 1))),
    )
}

// Order: the position of the child.
fn orders(rt: &impl Print) -> io::Result<()> {
    // of the children of position 0 that at 2 is before it
    wake(
        rt,
        b"an order: ",
        in_three(three(entry(5, 0, 0), entry(5, 1, 1), entry(4, 2, 2))),
    )?;
    // the same, and a free head that is a full slot, at step 0: order is tried first
    wake(
        rt,
        b"an order, and the free chain: ",
        in_three(freed(three(entry(5, 0, 0), entry(5, 1, 1), entry(4, 2, 2)), 0)),
    )?;
    // both children are before position 0: 1 is lower
    wake(
        rt,
        b"two orders: ",
        in_three(three(entry(5, 0, 0), entry(4, 1, 1), entry(3, 2, 2))),
    )
}

// Free chain: the step, the free head being step 0.
fn chains(rt: &impl Print) -> io::Result<()> {
    // step 0 is slot 0, and step 1 is 5, of a slot never made
    wake(rt, b"a free chain: ", bare(slab(empty(5), full(0), 1, 0)))?;
    // the same, and at step 0 of the list a place that does not wait: the free chain is tried first
    wake(
        rt,
        b"a free chain, and the list: ",
        from(bare(slab(empty(5), full(0), 1, 0)), 0),
    )?;
    // the same, and slot 1 is empty and not met: step 1 is where the chain goes wrong
    wake(
        rt,
        b"two faults of a free chain: ",
        bare(slab(empty(5), empty(2), 2, 0)),
    )?;
    // 0, 1, and at step 2 slot 0 again; slot 2 is not met
    wake(
        rt,
        b"a free chain with an early loop: ",
        bare(three_slots(empty(1), empty(0), empty(3), 0)),
    )?;
    // 0, 1, 2, and at step 3 slot 0 again, where the chain should end
    wake(
        rt,
        b"a free chain with a late loop: ",
        bare(three_slots(empty(1), empty(2), empty(0), 0)),
    )
}

// List: the step, the head being step 0.
fn lists(rt: &impl Print) -> io::Result<()> {
    // step 0 is place 0, the last of the list, which ends at step 1 without place 1
    wake(rt, b"a list: ", from(sets::two(waits(), waits()), 0))?;
    // the same, and place 0 has an invalid mark: the list is tried first
    wake(
        rt,
        b"a list, and a place: ",
        from(sets::two(invalid(Waiting::Last), waits()), 0),
    )?;
    // step 0 is place 0, and step 1 is place 1, which does not wait; place 2 waits and is not met
    wake(
        rt,
        b"two faults of a list: ",
        from(with_timer(sets::two(before(1), apart()), 2, waits()), 0),
    )?;
    // 0, 1, and at step 2 place 0 again; place 2 waits and is not met
    wake(
        rt,
        b"a list with an early loop: ",
        from(with_timer(sets::two(before(1), before(0)), 2, waits()), 0),
    )?;
    // 0, 1, 2, and at step 3 place 0 again, where the list should end
    wake(
        rt,
        b"a list with a late loop: ",
        from(with_timer(sets::two(before(1), before(2)), 2, before(0)), 0),
    )
}

// Place: the lowest at which anything else is wrong.
fn places(rt: &impl Print) -> io::Result<()> {
    // the timer at place 3 has the invalid mark
    wake(
        rt,
        b"a place: ",
        with_timer(state::fresh(), 3, invalid(Waiting::No)),
    )?;
    // an entry of place 4, which is free, and the timer at place 3: 3 is lower
    wake(
        rt,
        b"two places: ",
        with_timer(bare(heaps::one(entry(5, 4, 0))), 3, invalid(Waiting::No)),
    )?;
    // an entry of place 2, which is free, and the timer at place 3: 2 is lower, whoever is at fault there
    wake(
        rt,
        b"an entry of place 2, and place 3: ",
        with_timer(bare(heaps::one(entry(5, 2, 0))), 3, invalid(Waiting::No)),
    )?;
    // entries of the places 9 and 7, both free: 7 is lower, though its entry stands behind the other
    wake(
        rt,
        b"entries of places 9 and 7: ",
        bare(heaps::two(entry(5, 9, 0), entry(5, 7, 1))),
    )?;
    // an entry's fault is at the place that it holds, not at its position
    wake(
        rt,
        b"an entry of place 65535: ",
        bare(heaps::one(entry(5, 65_535, 0))),
    )?;
    // both: 3 is lower
    wake(
        rt,
        b"an entry of place 65535, and place 3: ",
        with_timer(
            bare(heaps::one(entry(5, 65_535, 0))),
            3,
            invalid(Waiting::No),
        ),
    )?;
    // place 2 is in the list as it should be, but in a closed set nobody waits
    wake(
        rt,
        b"a closed set with a timer that waits: ",
        closed(from(with_timer(state::fresh(), 2, waits()), 2)),
    )
}

// All of them.
pub fn run(rt: &impl Print) -> io::Result<()> {
    counts(rt)?;
    positions(rt)?;
    orders(rt)?;
    chains(rt)?;
    lists(rt)?;
    places(rt)
}
