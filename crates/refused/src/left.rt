// The two queries, how long a timer has to go and the least of that over the live timers that have not fired: on a sound set, on
// unsound ones, which refuse both with 1, and on a closed one, which refuses both with 2. Then dead handles, which refuse a time left
// with 3; numbers at either end of the signed ones of 64 bits, and one past each, refused with 6; which of the four comes first; and
// which timers count for the least.
use crate::sets::{added, closed, handle, with_timer};
use handmade::tell;
use state::{Handle, Set};
use std::io;

// What is asked, and what a time left of a handle answers.
fn time_left(rt: &impl Print, what: &[u8], s: Set, h: Handle, reading: u64) -> io::Result<()> {
    tell::text(rt, what)?;
    tell::answer(rt, b"time left ", timers::left::time_left(s, h, reading))
}

// What is asked, and what a least left answers.
fn least_left(rt: &impl Print, what: &[u8], s: Set, reading: u64) -> io::Result<()> {
    tell::text(rt, what)?;
    tell::answer(rt, b"least left ", timers::left::least_left(s, reading))
}

// Both queries, the first of 0:0.
fn both(rt: &impl Print, what: &[u8], s: Set, reading: u64) -> io::Result<()> {
    time_left(rt, what, s, handle(0, 0), reading)?;
    least_left(rt, what, s, reading)
}

// The sets of the calls, with a timer of deadline 5, at reading 7. Row 45, and row 51 below, are those of specs/States.antt in the
// crate `promises`.
fn doors(rt: &impl Print) -> io::Result<()> {
    both(rt, b"a fired timer in an open set: ", with_timer(1, 5), 7)?;
    both(
        rt,
        b"row 45, clause 41, the same with an invalid mark: ",
        with_timer(3, 5),
        7,
    )?;
    both(rt, b"the same, closed: ", closed(with_timer(3, 5)), 7)
}

// A handle past the places.
fn past() -> Handle {
    handle(heap::CAP as u16, 0)
}

// The set after a cancel of 0:0.
fn cancelled(s: Set) -> Set {
    timers::cancel(s, handle(0, 0)).state
}

// Handles that are dead: past the places, of a free place, with another use number, and cancelled.
fn dead_handles(rt: &impl Print) -> io::Result<()> {
    let s = with_timer(1, 5);
    time_left(rt, b"a handle past the places: ", s, past(), 7)?;
    time_left(rt, b"a handle of a free place: ", s, handle(1, 0), 7)?;
    time_left(rt, b"a handle of another use: ", s, handle(0, 1), 7)?;
    time_left(
        rt,
        b"a handle that is cancelled: ",
        cancelled(s),
        handle(0, 0),
        7,
    )
}

// A set with one timer that has not fired, so that both queries answer the same.
fn pending(rt: &impl Print, what: &[u8], due: u64, reading: u64) -> io::Result<()> {
    both(rt, what, with_timer(0, due), reading)
}

// The ends of the signed numbers of 64 bits, and one past each.
fn ends(rt: &impl Print) -> io::Result<()> {
    pending(rt, b"deadline 5 at reading 7: ", 5, 7)?;
    pending(
        rt,
        b"deadline 2^63-1 at reading 0: ",
        9_223_372_036_854_775_807,
        0,
    )?;
    pending(
        rt,
        b"deadline 2^63 at reading 0: ",
        9_223_372_036_854_775_808,
        0,
    )?;
    pending(
        rt,
        b"deadline 0 at reading 2^63: ",
        0,
        9_223_372_036_854_775_808,
    )?;
    pending(
        rt,
        b"deadline 0 at reading 2^63+1: ",
        0,
        9_223_372_036_854_775_809,
    )?;
    pending(
        rt,
        b"deadline 2^64-1 at reading 2^64-1: ",
        u64::MAX,
        u64::MAX,
    )
}

// Queries with more than one reason to be refused: 1 goes before 2, and both go before 3 and before 6.
fn in_order(rt: &impl Print) -> io::Result<()> {
    both(
        rt,
        b"row 51, clause 43, a closed set with a timer in its list: ",
        closed(added(state::fresh(), 5)),
        7,
    )?;
    time_left(
        rt,
        b"an invalid mark in an open set, and a handle past the places: ",
        with_timer(2, 5),
        past(),
        7,
    )?;
    time_left(
        rt,
        b"the same, closed: ",
        closed(with_timer(2, 5)),
        past(),
        7,
    )?;
    both(
        rt,
        b"an invalid mark in an open set, and deadline 2^64-1 at reading 0: ",
        with_timer(2, u64::MAX),
        0,
    )?;
    both(
        rt,
        b"the same, closed: ",
        closed(with_timer(2, u64::MAX)),
        0,
    )
}

// Which timers count for the least: one that waits does; one that has fired does not, nor one that is cancelled, however early.
fn counted(rt: &impl Print) -> io::Result<()> {
    least_left(rt, b"no timer, at reading 2: ", state::fresh(), 2)?;
    least_left(
        rt,
        b"one fired of deadline 1, at reading 2: ",
        with_timer(1, 1),
        2,
    )?;
    least_left(
        rt,
        b"the same, and one that waits of deadline 9: ",
        added(with_timer(1, 1), 9),
        2,
    )?;
    least_left(
        rt,
        b"the same, the first cancelled and not fired: ",
        cancelled(added(with_timer(0, 1), 9)),
        2,
    )
}

// A timer too far ahead is refused with 6, but is no reason to refuse the least where another is nearer.
fn far_ahead(rt: &impl Print) -> io::Result<()> {
    let far = added(state::fresh(), u64::MAX);
    both(rt, b"one of deadline 2^64-1, at reading 0: ", far, 0)?;
    both(rt, b"the same, and one of deadline 5: ", added(far, 5), 0)
}

// All of them.
pub fn run(rt: &impl Print) -> io::Result<()> {
    doors(rt)?;
    dead_handles(rt)?;
    ends(rt)?;
    in_order(rt)?;
    counted(rt)?;
    far_ahead(rt)
}
