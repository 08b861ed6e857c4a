// Every call on a set: on a sound one, on an unsound one, which refuses each with 1, and on a closed one, which refuses all but two with
// 2. The calls are made by `perform`, which makes each by its own function. Then what a handle and a tick are refused for.
use crate::sets::{closed, handle, with_timer};
use handmade::tell;
use interval::Policy;
use state::{Handle, Set};
use std::io;
use timers::Call;

// What the set is, which call is made, and what it answers.
fn call(rt: &impl Print, what: &[u8], name: &[u8], s: Set, c: Call) -> io::Result<()> {
    let mut list = [0u64; heap::CAP];
    tell::text(rt, what)?;
    tell::answer(rt, name, timers::perform(s, c, &mut list).answer)
}

// The calls that take neither a handle nor a reading.
fn plain_calls(rt: &impl Print, what: &[u8], s: Set) -> io::Result<()> {
    call(rt, what, b"add ", s, Call::Add { due: 7 })?;
    call(rt, what, b"drain ", s, Call::Drain)?;
    call(rt, what, b"next wake ", s, Call::NextWake)?;
    call(rt, what, b"close ", s, Call::Close)
}

// The calls that take a reading and a report list.
fn readings(rt: &impl Print, what: &[u8], s: Set) -> io::Result<()> {
    call(rt, what, b"advance ", s, Call::Advance { reading: 5 })?;
    call(rt, what, b"turn ", s, Call::Turn { reading: 5 })
}

// The calls that take a handle.
fn handle_calls(rt: &impl Print, what: &[u8], s: Set, h: Handle) -> io::Result<()> {
    call(rt, what, b"reset ", s, Call::Reset { handle: h, due: 7 })?;
    call(rt, what, b"cancel ", s, Call::Cancel { handle: h })?;
    call(rt, what, b"poll ", s, Call::Poll { handle: h })?;
    call(
        rt,
        what,
        b"tick ",
        s,
        Call::Tick {
            handle: h,
            policy: Policy::Burst,
            period: 10,
            reading: 5,
        },
    )?;
    call(
        rt,
        what,
        b"interval reset ",
        s,
        Call::Restart {
            handle: h,
            period: 10,
            reading: 5,
        },
    )
}

// All eleven.
fn all_calls(rt: &impl Print, what: &[u8], s: Set) -> io::Result<()> {
    plain_calls(rt, what, s)?;
    readings(rt, what, s)?;
    handle_calls(rt, what, s, handle(0, 0))
}

// A set with one live timer of this word and deadline 5.
fn with_word(word: u32) -> Set {
    with_timer(word, 5)
}

// Handles that are dead: past the places, of a free place, and with another use number.
fn dead_handles(rt: &impl Print) -> io::Result<()> {
    let past = handle(heap::CAP as u16, 0);
    handle_calls(rt, b"a handle past the places: ", with_word(1), past)?;
    let nobody = handle(1, 0);
    handle_calls(rt, b"a handle of a free place: ", with_word(1), nobody)?;
    let other = handle(0, 1);
    handle_calls(rt, b"a handle of another use: ", with_word(1), other)
}

// A tick with Skip of 0:0 in a set with a timer of this word.
fn skip(rt: &impl Print, what: &[u8], word: u32, period: u64, reading: u64) -> io::Result<()> {
    let c = Call::Tick {
        handle: handle(0, 0),
        policy: Policy::Skip,
        period,
        reading,
    };
    call(rt, what, b"tick ", with_word(word), c)
}

// What a tick is refused for: 10 before 9 before 6.
fn ticks(rt: &impl Print) -> io::Result<()> {
    skip(rt, b"not fired, a late Skip of period 0: ", 0, 0, 5_000_006)?;
    skip(rt, b"fired, a late Skip of period 0: ", 1, 0, 5_000_006)?;
    skip(rt, b"fired, a Skip of period 0 on time: ", 1, 0, 5_000_005)?;
    skip(
        rt,
        b"fired, a late Skip whose sum is 2^64-1: ",
        1,
        18_446_744_073_704_551_609,
        5_000_006,
    )?;
    skip(
        rt,
        b"fired, a late Skip whose sum is 2^64: ",
        1,
        18_446_744_073_704_551_610,
        5_000_006,
    )
}

// All of them. A fired timer with an invalid mark is row 45 of specs/States.antt in the crate `promises`.
pub fn run(rt: &impl Print) -> io::Result<()> {
    all_calls(rt, b"a fired timer in an open set: ", with_word(1))?;
    all_calls(
        rt,
        b"row 45, clause 41, the same with an invalid mark: ",
        with_word(3),
    )?;
    all_calls(rt, b"the same, closed: ", closed(with_word(3)))?;
    dead_handles(rt)?;
    ticks(rt)
}
