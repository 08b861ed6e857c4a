// Sound sets to which no call leads, or none in a lifetime, and what the calls answer.
use crate::sets;
use crate::sets::{apart, free, open, timer};
use handmade::heaps::{entry, one};
use handmade::tell::answer;
use heap::{Place, Slot};
use state::{Handle, Life, Set, Timer, Waiting};
use std::io;

// What the set is, and what an advance of it to 5 answers.
fn advance(rt: &impl Print, what: &[u8], s: Set) -> io::Result<()> {
    let mut list = [0u64; heap::CAP];
    answer(rt, what, timers::advance(s, 5, &mut list).answer)
}

// What the set is, and what an add to it answers. Answers the set.
fn add(rt: &impl Print, what: &[u8], s: Set) -> io::Result<Set> {
    let a = timers::add(s, 10);
    answer(rt, what, a.answer)?;
    Ok(a.state)
}

// A set with an entry of deadline 5 and generation 0, whose timer has this word and this deadline.
fn with_entry(word: u32, due: u64) -> Set {
    open(
        one(entry(5, 0, 0)),
        timer(Life::Live { word, due }, Waiting::No, Some(Slot(0))),
    )
}

// A place that is retired with use numbers left, and entries that no drain made.
fn odd_ones(rt: &impl Print) -> io::Result<()> {
    add(
        rt,
        b"place 0 retired: add ",
        sets::one(timer(Life::Retired, Waiting::No, None)),
    )?;
    advance(
        rt,
        b"fired, with an entry of its own generation: advance ",
        with_entry(1, 5),
    )?;
    advance(
        rt,
        b"an entry earlier than its timer's deadline: advance ",
        with_entry(0, 9),
    )
}

// A live timer that a close does not meet.
fn unmet(rt: &impl Print) -> io::Result<()> {
    let c = timers::close(sets::one(apart()));
    answer(
        rt,
        b"live, neither waiting nor in the heap: close ",
        c.answer,
    )?;
    let first = Handle {
        place: Place(0),
        uses: 0,
    };
    answer(
        rt,
        b"and a poll of it then ",
        timers::poll(c.state, first).answer,
    )
}

// A set of which this is every place but place 0. A cancelled timer with this use number is there, and a drain reaches it.
fn last_uses(uses: u32, others: Timer) -> Set {
    let mut timers = [others; heap::CAP];
    timers[0] = Timer {
        life: Life::Cancelled { word: 0 },
        waiting: Waiting::Last,
        held: None,
        uses,
    };
    Set {
        heap: heap::fresh(),
        timers,
        first: Some(Place(0)),
        closed: false,
    }
}

// What the set is, and what an add to it after a drain answers. Answers the set.
fn drained_add(rt: &impl Print, what: &[u8], s: Set) -> io::Result<Set> {
    add(rt, what, timers::drain(s).state)
}

// The last use numbers of a place: it is retired after the last of all, and not before. Rows 1 to 4 of the further rows.
fn worn_out_ones(rt: &impl Print) -> io::Result<()> {
    drained_add(
        rt,
        b"place 0 cancelled with use number 4294967294: drain, add ",
        last_uses(4_294_967_294, free()),
    )?;
    drained_add(
        rt,
        b"with 4294967295: drain, add ",
        last_uses(4_294_967_295, free()),
    )?;
    let s = drained_add(
        rt,
        b"with 4294967294, and no other place free: drain, add ",
        last_uses(4_294_967_294, apart()),
    )?;
    add(rt, b"and an add more ", s)?;
    drained_add(
        rt,
        b"with 4294967295, and no other place free: drain, add ",
        last_uses(4_294_967_295, apart()),
    )?;
    Ok(())
}

// All of them.
pub fn run(rt: &impl Print) -> io::Result<()> {
    odd_ones(rt)?;
    unmet(rt)?;
    worn_out_ones(rt)
}
