// The calls on a heap alone, and the lines that tell of them.
use crate::record::Record;
use crate::text::Output;
use heap::{Entry, Heap, Place, Pushed, Removed, SlabSlot, Slot, SlotState};
use refusals::Refusal;
use refusals::outcome::Outcome;

// A call on a heap.
#[derive(Clone, Copy)]
enum Call {
    Push { due: u64 },
    Remove { slot: Slot },
    Pop,
    Peek,
    Test,
}

// The call that a record asks for, where there is one.
fn call_of(r: Record) -> Option<Call> {
    match r.op {
        16 => Some(Call::Push { due: r.a }),
        17 => Some(Call::Remove {
            slot: Slot(r.place),
        }),
        18 => Some(Call::Pop),
        19 => Some(Call::Peek),
        20 => Some(Call::Test),
        _ => None,
    }
}

// Makes the call of a record on a heap and tells of it, where there is such a call.
pub fn told(h: &mut Heap, r: Record, out: &mut Output) {
    match call_of(r) {
        Some(call) => made(h, r, call, out),
        None => out.unknown(),
    }
}

// Makes a call on a heap and tells of it. (Not part of its caller, for the room that it takes on the stack.)
#[inline(never)]
fn made(h: &mut Heap, r: Record, call: Call, out: &mut Output) {
    out.number(r.op as u64);
    match call {
        Call::Push { due } => pushed(h, heap::push(*h, due, 0, Place(0)), out),
        Call::Remove { slot } => removed(h, heap::remove(*h, slot), out),
        Call::Pop => popped(h, heap::pop(*h), out),
        Call::Peek => peeked(heap::peek(*h), out),
        Call::Test => tested(heap::consistent(*h), out),
    }
    shown(h, out);
}

// Takes over the heap that a push left, and puts what it answered: the slot and the swaps.
fn pushed(h: &mut Heap, after: Outcome<Heap, Pushed>, out: &mut Output) {
    *h = after.state;
    match after.answer {
        Ok(Pushed { slot, swaps }) => {
            out.accepted();
            out.field(slot.0 as u64);
            out.field(swaps as u64)
        }
        Err(why) => out.refused(why),
    }
}

// Takes over the heap that a removal by slot left, and puts what it answered: the deadline and the swaps.
fn removed(h: &mut Heap, after: Outcome<Heap, Removed>, out: &mut Output) {
    *h = after.state;
    match after.answer {
        Ok(Removed { entry, swaps }) => {
            out.accepted();
            out.field(entry.at);
            out.field(swaps as u64)
        }
        Err(why) => out.refused(why),
    }
}

// Takes over the heap that a pop left, and puts what it answered: the deadline, the slot and the swaps, or nothing.
fn popped(h: &mut Heap, after: Outcome<Heap, Option<Removed>>, out: &mut Output) {
    *h = after.state;
    match after.answer {
        Ok(Some(Removed { entry, swaps })) => {
            head(entry, out);
            out.field(swaps as u64)
        }
        Ok(None) => nothing(out),
        Err(why) => out.refused(why),
    }
}

// What a peek answered: the deadline and the slot, or nothing.
fn peeked(answer: Result<Option<Entry>, Refusal>, out: &mut Output) {
    match answer {
        Ok(Some(entry)) => head(entry, out),
        Ok(None) => nothing(out),
        Err(why) => out.refused(why),
    }
}

// What the heap test answered.
fn tested(sound: bool, out: &mut Output) {
    out.accepted();
    out.field(sound as u64);
}

// The answer with an entry: its deadline and its slot.
fn head(e: Entry, out: &mut Output) {
    out.accepted();
    out.field(e.at);
    out.field(e.slot.0 as u64);
}

// The answer that there is no entry.
fn nothing(out: &mut Output) {
    out.accepted();
    out.mark(b'-');
}

// Shows a heap, and ends the line.
fn shown(h: &Heap, out: &mut Output) {
    out.mark(b'|');
    entries(h, out);
    out.mark(b'|');
    out.field(h.free.0 as u64);
    out.field(h.made as u64);
    slots(h, out);
    out.end();
}

// A heap's entries by position: the deadline and the slot of each.
fn entries(h: &Heap, out: &mut Output) {
    for e in h.entries.iter().take(h.len) {
        out.field(e.at);
        out.part(e.slot.0 as u64);
    }
}

// The slots that were made.
fn slots(h: &Heap, out: &mut Output) {
    for s in h.slots.iter().take(h.made) {
        slot(*s, out);
    }
}

// A slot: a full one with its position, or an empty one with the next free slot.
fn slot(s: SlabSlot, out: &mut Output) {
    match s.state {
        SlotState::Full(pos) => {
            out.mark(b'F');
            out.number(pos.0 as u64)
        }
        SlotState::Empty(next) => {
            out.mark(b'E');
            out.number(next.0 as u64)
        }
    }
}
