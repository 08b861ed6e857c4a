// What a clock refuses: a counter below its start with 7, a sum past the last time with 6, and a call in the wrong mode with 8.
use clock::Clock;
use handmade::tell;
use handmade::tell::answer;
use std::io;

// What the clock is, and what a reading and a pause of it answer.
fn running(rt: &impl Print, what: &[u8], c: Clock, raw: u64) -> io::Result<()> {
    tell::text(rt, what)?;
    answer(rt, b"reading ", clock::reading(c, raw))?;
    tell::text(rt, what)?;
    answer(rt, b"pause ", clock::pause(c, raw).answer)
}

// The calls of a running clock.
fn runs(rt: &impl Print) -> io::Result<()> {
    let last = Clock::Running {
        base: u64::MAX,
        start: 3,
    };
    running(rt, b"a clock at the last time: ", last, 3)?;
    running(rt, b"the same, a counter below its start: ", last, 2)?;
    running(rt, b"the same, a counter past its start: ", last, 4)?;
    answer(rt, b"the same: resume ", clock::resume(last, 3).answer)?;
    answer(
        rt,
        b"the same: advance by 1 ",
        clock::advance(last, 1).answer,
    )
}

// The calls of a paused clock.
fn stands(rt: &impl Print) -> io::Result<()> {
    let last = Clock::Paused { base: u64::MAX };
    running(rt, b"a paused clock at the last time: ", last, 2)?;
    answer(rt, b"the same: resume ", clock::resume(last, 3).answer)?;
    answer(
        rt,
        b"the same: advance by 0 ",
        clock::advance(last, 0).answer,
    )?;
    answer(
        rt,
        b"the same: advance by 1 ",
        clock::advance(last, 1).answer,
    )
}

// All of them.
pub fn run(rt: &impl Print) -> io::Result<()> {
    runs(rt)?;
    stands(rt)
}
