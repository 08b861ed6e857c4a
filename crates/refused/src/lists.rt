// Report lists: one with a word too few is refused with 5, after a close with 2; of a longer one only the words of the reports are
// written, and in a refused call none. Before each call the words of a list are 65536, 65537 and so on.
use crate::sets::added;
use handmade::tell;
use state::Set;
use std::io;
use timers::Call;

// A word too few, and six words more than the capacity.
const SHORT: usize = heap::CAP - 1;

const LONG: usize = heap::CAP + 6;

// The reading of every advance and turn; a timer at every place can be due by then, each at a time of its own.
const READING: u64 = heap::CAP as u64;

const ADVANCE: Call = Call::Advance { reading: READING };

const TURN: Call = Call::Turn { reading: READING };

// Makes the words of a list all different, and no handle's: each has one of the 16 zero bits set.
fn mark(list: &mut [u64]) {
    for (i, word) in list.iter_mut().enumerate() {
        *word = 65_536 + i as u64;
    }
}

// What the set is and which call is made of it with a list, what the call answers, and the words of the list then. Answers the set.
fn told(rt: &impl Print, what: &[u8], s: Set, call: Call, list: &mut [u64]) -> io::Result<Set> {
    mark(list);
    let a = timers::perform(s, call, list);
    tell::answer(rt, what, a.answer)?;
    tell::text(rt, b"the words then:")?;
    tell::words(rt, list)?;
    Ok(a.state)
}

// An advance with a word too few, and then a turn of the set that it hands back.
fn short(rt: &impl Print, advance: &[u8], turn: &[u8], s: Set) -> io::Result<Set> {
    let t = told(rt, advance, s, ADVANCE, &mut [0; SHORT])?;
    told(rt, turn, t, TURN, &mut [0; SHORT])
}

// A turn with six words more.
fn long(rt: &impl Print, what: &[u8], s: Set) -> io::Result<Set> {
    told(rt, what, s, TURN, &mut [0; LONG])
}

// A set with a timer at every place, due at 1, 2 and so on, by the calls.
fn all_waiting() -> Set {
    let mut s = state::fresh();
    for due in 1..=READING {
        s = added(s, due);
    }
    s
}

// The set closed by a call.
fn shut(s: Set) -> Set {
    timers::close(s).state
}

// All of them.
pub fn run(rt: &impl Print) -> io::Result<()> {
    let s = added(added(state::fresh(), 9), READING + 1);
    let t = short(
        rt,
        b"a list a word too short: advance ",
        b"a list a word too short: turn ",
        s,
    )?;
    long(
        rt,
        b"the set handed back, and a list six words longer: turn ",
        t,
    )?;
    long(
        rt,
        b"a timer at every place, and a list six words longer: turn ",
        all_waiting(),
    )?;
    let c = short(
        rt,
        b"a list a word too short after a close: advance ",
        b"a list a word too short after a close: turn ",
        shut(s),
    )?;
    long(rt, b"a list six words longer after a close: turn ", c)?;
    Ok(())
}
