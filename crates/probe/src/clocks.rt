// The calls on a clock alone, and the lines that tell of them.
use crate::record::Record;
use crate::text::Output;
use clock::Clock;
use refusals::Refusal;
use refusals::outcome::Outcome;

// A call on a clock.
#[derive(Clone, Copy)]
enum Call {
    Fresh { raw: u64 },
    Read { raw: u64 },
    Pause { raw: u64 },
    Resume { raw: u64 },
    Advance { duration: u64 },
}

// The call that a record asks for, where there is one.
fn call_of(r: Record) -> Option<Call> {
    match r.op {
        24 => Some(Call::Fresh { raw: r.a }),
        25 => Some(Call::Read { raw: r.a }),
        26 => Some(Call::Pause { raw: r.a }),
        27 => Some(Call::Resume { raw: r.a }),
        28 => Some(Call::Advance { duration: r.a }),
        _ => None,
    }
}

// Makes the call of a record on a clock and tells of it.
pub fn told(c: &mut Clock, r: Record, out: &mut Output) {
    let Some(call) = call_of(r) else {
        return out.unknown();
    };
    out.number(r.op as u64);
    match call {
        Call::Fresh { raw } => {
            *c = clock::fresh(raw);
            out.accepted()
        }
        Call::Read { raw } => read(clock::reading(*c, raw), out),
        Call::Pause { raw } => changed(c, clock::pause(*c, raw), out),
        Call::Resume { raw } => changed(c, clock::resume(*c, raw), out),
        Call::Advance { duration } => changed(c, clock::advance(*c, duration), out),
    }
    shown(*c, out);
}

// Takes over the clock that a change left, and puts whether it was accepted.
fn changed(c: &mut Clock, after: Outcome<Clock, ()>, out: &mut Output) {
    *c = after.state;
    match after.answer {
        Ok(()) => out.accepted(),
        Err(why) => out.refused(why),
    }
}

// What a reading answered.
fn read(time: Result<u64, Refusal>, out: &mut Output) {
    match time {
        Ok(time) => {
            out.accepted();
            out.field(time)
        }
        Err(why) => out.refused(why),
    }
}

// Shows a clock, and ends the line.
fn shown(c: Clock, out: &mut Output) {
    match c {
        Clock::Running { base, start } => {
            out.bytes(b" | r");
            out.field(base);
            out.field(start);
        }
        Clock::Paused { base } => {
            out.bytes(b" | p");
            out.field(base);
        }
    }
    out.end();
}
