// The calls on a set of timers, and the lines that tell of them.
use crate::record::Record;
use crate::text::Output;
use heap::{Heap, Place, Slot};
use interval::Policy;
use refusals::Refusal;
use state::{Handle, Life, Set, Timer, Waiting};
use timers::{Call, Reply};
use word::Polled;

// Every bit of a state word but the invalid mark.
const VALID: u32 = 0xffff_fffd;
// 2^32: a number of 64 bits has its lower half below it.
const HIGH: u64 = 4_294_967_296;

// What a record asks of a set.
#[derive(Clone, Copy)]
enum Wish {
    Call(Call),
    // for tests alone: another state word for a live timer
    Word { handle: Handle, word: u32 },
}

// Does what a record asks of a set and tells of it, where it asks something.
pub fn told(s: &mut Set, r: Record, out: &mut Output) {
    match wish_of(r) {
        Some(wish) => granted(s, r, wish, out),
        None => out.unknown(),
    }
}

// Does what is asked of a set and tells of it. (Not part of its caller: what it has on its stack is asked for at each entry, and would
// be for the records of a heap and of a clock too, and for those that ask nothing.)
#[inline(never)]
fn granted(s: &mut Set, r: Record, wish: Wish, out: &mut Output) {
    out.number(r.op as u64);
    match wish {
        Wish::Call(call) => performed(s, call, out),
        Wish::Word { handle, word } => reworded(s, handle, word, out),
    }
    shown(s, r.c, out);
}

// Makes a call, with a list of the length that an advance asks for, and puts what it answered.
fn performed(s: &mut Set, call: Call, out: &mut Output) {
    let mut list = [0u64; heap::CAP];
    let a = timers::perform(*s, call, &mut list);
    *s = a.state;
    match a.answer {
        Ok(reply) => {
            out.accepted();
            values(reply, &list, out)
        }
        Err(why) => out.refused(why),
    }
}

// Gives a live timer another state word, and puts whether that was accepted.
fn reworded(s: &mut Set, handle: Handle, word: u32, out: &mut Output) {
    match with_word(*s, handle, word) {
        Ok(after) => {
            *s = after;
            out.accepted()
        }
        Err(why) => out.refused(why),
    }
}

// What a record asks, where there is such a call.
fn wish_of(r: Record) -> Option<Wish> {
    let handle = Handle {
        place: Place(r.place),
        uses: r.uses,
    };
    let call = match r.op {
        0 => Call::Add { due: r.a },
        1 => Call::Reset { handle, due: r.a },
        2 => Call::Cancel { handle },
        3 => Call::Drain,
        4 => Call::Advance { reading: r.a },
        5 => Call::Turn { reading: r.a },
        6 => Call::NextWake,
        7 => Call::Poll { handle },
        8 => Call::Close,
        9 => Call::Tick {
            handle,
            policy: policy_of(r.policy)?,
            period: r.a,
            reading: r.b,
        },
        10 => Call::Restart {
            handle,
            period: r.a,
            reading: r.b,
        },
        12 => {
            let word = (r.a % HIGH) as u32 & VALID;
            return Some(Wish::Word { handle, word });
        }
        _ => return None,
    };
    Some(Wish::Call(call))
}

// The policy of a number, where it has one.
fn policy_of(number: u8) -> Option<Policy> {
    match number {
        0 => Some(Policy::Burst),
        1 => Some(Policy::Delay),
        2 => Some(Policy::Skip),
        _ => None,
    }
}

// The set with another state word for a live timer: refused where the set is closed, or the handle dead.
fn with_word(s: Set, handle: Handle, word: u32) -> Result<Set, Refusal> {
    if s.closed {
        return Err(Refusal::Closed);
    }
    let p = handle.place.0 as usize;
    let t = s.timers.get(p).ok_or(Refusal::DeadHandle)?;
    if t.uses != handle.uses {
        return Err(Refusal::DeadHandle);
    }
    let Life::Live { due, .. } = t.life else {
        return Err(Refusal::DeadHandle);
    };
    let mut g = s;
    g.timers[p].life = Life::Live { word, due };
    Ok(g)
}

// The values of an accepted call.
fn values(reply: Reply, list: &[u64; heap::CAP], out: &mut Output) {
    match reply {
        Reply::Added(handle) => {
            out.field(handle.place.0 as u64);
            out.field(handle.uses as u64)
        }
        Reply::Done => {}
        Reply::Ran { reported, popped } => {
            out.field(reported as u64);
            out.field(popped as u64);
            reports(list, reported, out)
        }
        Reply::Wake(next) => wake(next, out),
        Reply::Found(polled) => found(polled, out),
        Reply::Ticked(due) => out.field(due),
    }
}

// A next wake, or none.
fn wake(next: Option<u64>, out: &mut Output) {
    match next {
        Some(time) => out.field(time),
        None => out.mark(b'-'),
    }
}

// What a poll found.
fn found(polled: Polled, out: &mut Output) {
    out.field(match polled {
        Polled::Pending => 0,
        Polled::Fired => 1,
        Polled::Gone => 2,
    });
}

// The handles that were reported, each as place and use number.
fn reports(list: &[u64; heap::CAP], reported: usize, out: &mut Output) {
    for word in list.iter().take(reported) {
        name(*word, out);
    }
}

// Whom a word names, as place and use number; a question mark for nobody.
fn name(word: u64, out: &mut Output) {
    match state::handle_of(word) {
        None => out.mark(b'?'),
        Some(handle) => {
            out.field(handle.place.0 as u64);
            out.part(handle.uses as u64)
        }
    }
}

// Shows a set, with how long is left at a reading, and ends the line.
fn shown(s: &Set, reading: u64, out: &mut Output) {
    out.mark(b'|');
    next_wake(s, out);
    least(timers::left::least_left(*s, reading), out);
    out.mark(b'|');
    waiting(s, out);
    out.mark(b'|');
    places(*s, reading, out);
    out.mark(b'|');
    entries(&s.heap, out);
    out.end();
}

// The heap's entries by position: the deadline, the generation, the place and the slot of each.
fn entries(h: &Heap, out: &mut Output) {
    for e in h.entries.iter().take(h.len) {
        out.field(e.at);
        out.part(e.generation as u64);
        out.part(e.place.0 as u64);
        out.part(e.slot.0 as u64);
    }
}

// What a next wake answers.
fn next_wake(s: &Set, out: &mut Output) {
    match timers::next_wake(*s).answer {
        Ok(Reply::Wake(next)) => wake(next, out),
        _ => out.mark(b'?'),
    }
}

// The least that is left, or none.
fn least(least: Result<Option<i64>, Refusal>, out: &mut Output) {
    out.byte(b' ');
    match least {
        Ok(Some(nanos)) => out.signed(nanos),
        Ok(None) => out.byte(b'-'),
        Err(why) => out.barred(why),
    }
}

// The waiting list from its head, no longer than there are places.
fn waiting(s: &Set, out: &mut Output) {
    let mut next = s.first;
    for _ in 0..heap::CAP {
        let Some(place) = next else {
            break;
        };
        let Some(t) = s.timers.get(place.0 as usize) else {
            break;
        };
        out.field(place.0 as u64);
        next = state::fault::after(t.waiting);
    }
}

// The places that are not as in a fresh set, each with how long its timer has to go at a reading. It takes the set by value, since
// from behind a reference each query would copy it once more.
fn places(s: Set, reading: u64, out: &mut Output) {
    for (p, t) in s.timers.iter().enumerate() {
        if used(*t) {
            let handle = Handle {
                place: Place(p as u16),
                uses: t.uses,
            };
            place(p as u64, *t, out);
            left(timers::left::time_left(s, handle, reading), out);
        }
    }
}

// Whether a place is not as in a fresh set.
fn used(t: Timer) -> bool {
    !matches!(t.life, Life::Free) || t.uses != 0
}

// A place: its number, its use number, whose it is, the state word, the deadline and the slot.
fn place(p: u64, t: Timer, out: &mut Output) {
    out.field(p);
    out.part(t.uses as u64);
    life(t.life, out);
    held(t.held, out);
}

// How long a timer has to go.
fn left(left: Result<i64, Refusal>, out: &mut Output) {
    out.byte(b':');
    match left {
        Ok(nanos) => out.signed(nanos),
        Err(why) => out.barred(why),
    }
}

// Whose a place is, with the state word and the deadline.
fn life(l: Life, out: &mut Output) {
    match l {
        Life::Free => out.bytes(b":F:-:-"),
        Life::Live { word, due } => {
            out.bytes(b":L");
            out.part(word as u64);
            out.part(due)
        }
        Life::Cancelled { word } => {
            out.bytes(b":C");
            out.part(word as u64);
            out.bytes(b":-")
        }
        Life::Retired => out.bytes(b":R:-:-"),
    }
}

// The slot of a timer's entry.
fn held(h: Option<Slot>, out: &mut Output) {
    match h {
        None => out.bytes(b":-"),
        Some(slot) => out.part(slot.0 as u64),
    }
}
