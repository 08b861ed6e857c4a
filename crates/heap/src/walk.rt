// The two walks of an entry through the heap: up to where its parent is no larger, down to where no child is smaller. The entry is
// carried aside: where it would stand there is a hole, each entry that gives way is written into the hole, which moves on to where
// that one stood, and the carried entry is written once, at its last position. A walk runs over one heap of its own; what it calls
// takes entries.
ghost use Rattle.std.specs.Prelude.{◌≡◌, ◌<◌};
ghost use Rattle.heap.specs.Rules.{put_at, up_from, down_from};
ghost use Rattle.heap.specs.Sound.{SlotsIn};

use crate::{Entry, Heap, Pos, SlabSlot};

// A heap after a walk: where the entry stands now, and the swaps that it took.
#[derive(Clone, Copy)]
pub struct Moved {
    pub heap: Heap,
    pub at: Pos,
    pub swaps: usize,
}

// An entry that is to stand at a position goes up from there while it is smaller than the parent.
pub fn percolate_up(mut h: Heap, e: Entry, from: Pos) -> Moved
    requires from_lt_len { from.0 < h.len }
    requires slots_in { SlotsIn (put_at h from.0 e) }
    ensures { result ≡ up_from from.0 (put_at h from.0 e) from.0 0 }
{
    let mut at = from;
    let mut swaps = 0;
    while 0 < at.0 {
        let parent = Pos((at.0 - 1) / 2);
        let above = h.entries[parent.0 as usize];
        if !crate::before(e, above) {
            break;
        }
        h.entries[at.0 as usize] = above;
        h.slots[above.slot.0 as usize] = SlabSlot::full(at);
        at = parent;
        swaps += 1;
    }
    h.entries[at.0 as usize] = e;
    h.slots[e.slot.0 as usize] = SlabSlot::full(at);
    Moved { heap: h, at, swaps }
}

// An entry that is to stand at a position goes down from there while a child is smaller than it.
pub fn percolate_down(mut h: Heap, e: Entry, from: Pos) -> Moved
    requires from_lt_len { from.0 < h.len }
    requires slots_in { SlotsIn (put_at h from.0 e) }
    ensures { result ≡ down_from h.len (put_at h from.0 e) from.0 0 }
{
    let len = h.len;
    let mut at = from;
    let mut swaps = 0;
    let last = loop {
        let left = 2 * at.0 + 1;
        let l = left as usize;
        if len <= l {
            break at;
        }
        // added as a number, and not taken by a branch: which child is the smaller cannot be foreseen
        let right = l + 1 < len && crate::before(h.entries[l + 1], h.entries[l]);
        let child = Pos(left + u16::from(right));
        let below = h.entries[child.0 as usize];
        if !crate::before(below, e) {
            break at;
        }
        h.entries[at.0 as usize] = below;
        h.slots[below.slot.0 as usize] = SlabSlot::full(at);
        at = child;
        swaps += 1;
    };
    h.entries[last.0 as usize] = e;
    h.slots[e.slot.0 as usize] = SlabSlot::full(last);
    Moved {
        heap: h,
        at: last,
        swaps,
    }
}
