// The clock: time that can be paused, over a raw counter that the caller reads and hands in. A clock is a value: what changes
// one hands the new clock back, and a refusal the clock that was handed in.
#![tactic(auto)]

ghost use Rattle.clock.specs.Promises.{Starts, Reads, Pauses, Resumes, Advances, IsPaused, PausesAt};

use refusals::Refusal;
use refusals::outcome::Outcome;

#[derive(Clone, Copy)]
pub enum Clock {
    // the time was `base` when the raw counter stood at `start`, and has gone on with it since
    Running { base: u64, start: u64 },
    // the time is `base`, whatever the raw counter says
    Paused { base: u64 },
}

// A running clock whose time is the raw counter's.
pub fn fresh(raw: u64) -> Clock
    ensures { Starts raw result }
{
    Clock::Running {
        base: raw,
        start: raw,
    }
}

// The time that a clock shows.
pub fn reading(clock: Clock, raw: u64) -> Result<u64, Refusal>
    ensures { Reads clock raw result }
{
    match clock {
        Clock::Running { base, start } => {
            let elapsed = raw.checked_sub(start).ok_or(Refusal::CounterBehind)?;
            refusals::time::sum(base, elapsed)
        }
        Clock::Paused { base } => Ok(base),
    }
}

// The clock stopped at the time that it shows.
pub fn pause(clock: Clock, raw: u64) -> Outcome<Clock, ()>
    ensures { Pauses clock raw result }
{
    if is_paused(clock) {
        return Outcome::kept(clock, Refusal::WrongMode);
    }
    paused_at(clock, reading(clock, raw))
}

// The clock running again from the time at which it stands.
pub fn resume(clock: Clock, raw: u64) -> Outcome<Clock, ()>
    ensures { Resumes clock raw result }
{
    match clock {
        Clock::Running { .. } => Outcome::kept(clock, Refusal::WrongMode),
        Clock::Paused { base } => Outcome::given(Clock::Running { base, start: raw }, ()),
    }
}

// The paused clock set forward by a duration.
pub fn advance(clock: Clock, duration: u64) -> Outcome<Clock, ()>
    ensures { Advances clock duration result }
{
    match clock {
        Clock::Running { .. } => Outcome::kept(clock, Refusal::WrongMode),
        Clock::Paused { base } => paused_at(clock, refusals::time::sum(base, duration)),
    }
}

// Whether the clock is paused.
pub fn is_paused(clock: Clock) -> bool
    ensures { IsPaused clock result }
{
    matches!(clock, Clock::Paused { .. })
}

// The clock stopped at a time, or as it was where there is none.
fn paused_at(clock: Clock, time: Result<u64, Refusal>) -> Outcome<Clock, ()>
    ensures { PausesAt clock time result }
{
    match time {
        Ok(base) => Outcome::given(Clock::Paused { base }, ()),
        Err(why) => Outcome::kept(clock, why),
    }
}
