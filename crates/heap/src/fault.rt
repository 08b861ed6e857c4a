// The heap test: what is wrong with a heap, as scans that stop at the first fault. It is total on any value: counts beyond the
// capacity, slots out of range, free chains that loop or leave the slab.
ghost use Rattle.std.specs.Prelude.{◌≡◌, ◌≤◌};
ghost use Rattle.theory.specs.Counting.{count};
ghost use Rattle.refusals.specs.Faults.{said_verdict};
ghost use Rattle.heap.specs.Capacity.{cap};
ghost use Rattle.heap.specs.Sound.{Counted};
ghost use Rattle.heap.specs.Faults.{full_at, count_fault, position_fault, order_fault, chain_fault};
ghost use Rattle.heap.specs.Promises.{Faults};

use crate::{CAP, Heap, Pos, SlotState};
use refusals::fault::Fault;

// The first fault of a heap, in the order of the kinds.
pub fn first_fault(h: Heap) -> Result<(), Fault>
    ensures { Faults h result }
{
    count_fault(h)?;
    position_fault(h)?;
    order_fault(h)?;
    chain_fault(h)
}

// Whether the counts are wrong.
fn count_fault(h: Heap) -> Result<(), Fault>
    ensures { said_verdict result ≡ count_fault h }
{
    if h.len <= CAP && h.made <= CAP && full_count(h) == h.len {
        Ok(())
    } else {
        Err(Fault::Count)
    }
}

// How many of the slots that were made are full.
fn full_count(h: Heap) -> usize
    requires { h.made ≤ cap }
    ensures { result ≡ count (full_at h) h.made }
{
    let mut n = 0;
    for slot in &h.slots[..h.made] {
        if slot.is_full() {
            n += 1;
        }
    }
    n
}

// The first position whose entry's slot was not made, is empty, or names another position.
fn position_fault(h: Heap) -> Result<(), Fault>
    requires { (h.len ≤ cap) × (h.made ≤ cap) }
    ensures { said_verdict result ≡ position_fault h }
{
    for (i, e) in h.entries[..h.len].iter().enumerate() {
        let s = e.slot.0 as usize;
        if h.made <= s || !h.slots[s].names(Pos(i as u16)) {
            return Err(Fault::Position(i as u64));
        }
    }
    Ok(())
}

// The first position whose entry is smaller than its parent.
fn order_fault(h: Heap) -> Result<(), Fault>
    requires { h.len ≤ cap }
    ensures { said_verdict result ≡ order_fault h }
{
    for i in 1..h.len {
        if crate::before(h.entries[i], h.entries[(i - 1) / 2]) {
            return Err(Fault::Order(i as u64));
        }
    }
    Ok(())
}

// The first step at which the free chain meets a slot that was not made, is full or was met before, ends too soon, or goes on too
// long. It marks the slots that it meets: a loop is noticed where it closes.
fn chain_fault(h: Heap) -> Result<(), Fault>
    requires { Counted h }
    ensures { said_verdict result ≡ chain_fault h }
{
    let empty = h.made - h.len;
    let mut met = [false; CAP];
    let mut at = h.free;
    for step in 0..empty {
        let s = at.0 as usize;
        if h.made <= s || met[s] {
            return Err(Fault::FreeChain(step as u64));
        }
        let SlotState::Empty(next) = h.slots[s].state else {
            return Err(Fault::FreeChain(step as u64));
        };
        met[s] = true;
        at = next;
    }
    if at.0 as usize == h.made {
        Ok(())
    } else {
        Err(Fault::FreeChain(empty as u64))
    }
}
