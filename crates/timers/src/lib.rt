// The calls on a set of timers: timer/mod.rs, arc_list.rs, the state part of sleep.rs and the ticks of interval.rs.
//
// Every call takes any set. It tests the set's soundness first, then whether it may be made; a call that is refused hands back the
// set, and leaves the lent list as it was. `perform` makes a call by its name.
#![tactic(auto)]

pub mod left;

ghost use Rattle.timers.specs.Promises.{Adds, Resets, Cancels, Drains, Advances, Turns, Wakes, Polls, Closes, Ticks, Restarts, Performs, Guards, Opens, Enters, Admits, Finds, ResetsTo};

use interval::Policy;
use moves::rings::Ran;
use refusals::Refusal;
use refusals::outcome::Outcome;
use state::{Handle, Life, Set};
use word::Polled;

// A call on a set of timers.
#[derive(Clone, Copy)]
pub enum Call {
    Add {
        due: u64,
    },
    Reset {
        handle: Handle,
        due: u64,
    },
    Cancel {
        handle: Handle,
    },
    Drain,
    Advance {
        reading: u64,
    },
    Turn {
        reading: u64,
    },
    NextWake,
    Poll {
        handle: Handle,
    },
    Close,
    Tick {
        handle: Handle,
        policy: Policy,
        period: u64,
        reading: u64,
    },
    Restart {
        handle: Handle,
        period: u64,
        reading: u64,
    },
}

// What a call answers.
#[derive(Clone, Copy)]
pub enum Reply {
    // add: the new timer's handle
    Added(Handle),
    // reset, cancel, drain, close, interval reset
    Done,
    // advance and turn: how many timers were reported, and how many entries popped
    Ran { reported: usize, popped: usize },
    // next wake: the head's deadline, or none
    Wake(Option<u64>),
    // poll
    Found(Polled),
    // tick: the deadline that it answers
    Ticked(u64),
}

// The word and the deadline of a live timer.
#[derive(Clone, Copy)]
pub struct Timing {
    pub word: u32,
    pub due: u64,
}

impl Timing {
    // The timer's life once it is reset to a deadline: one generation on from its word.
    fn reset_to(self, due: u64) -> Life
        ensures { ResetsTo self due result }
    {
        Life::Live {
            word: word::after_reset(self.word),
            due,
        }
    }
}

// Every call begins here: whether it may be made on a set, or why not.
fn guarded(s: Set) -> Result<(), Refusal>
    ensures { Guards s result }
{
    match state::fault::first_fault(s) {
        Ok(()) => Ok(()),
        Err(fault) => Err(Refusal::Unsound(fault)),
    }
}

// A call that a closed set refuses begins here.
fn opened(s: Set) -> Result<(), Refusal>
    ensures { Opens s result }
{
    guarded(s)?;
    if s.closed {
        return Err(Refusal::Closed);
    }
    Ok(())
}

// The one door of the calls on a handle: the set must be sound, then open, and then the handle live. It hands no set back.
fn entered(s: Set, handle: Handle) -> Result<Timing, Refusal>
    ensures { Enters s handle result }
{
    opened(s)?;
    named(s, handle)
}

// The same door for a call that a closed set answers too.
fn met(s: Set, handle: Handle) -> Result<Timing, Refusal>
    ensures { Admits s handle result }
{
    guarded(s)?;
    named(s, handle)
}

// Adds a timer at the lowest free place.
pub fn add(s: Set, due: u64) -> Outcome<Set, Reply>
    ensures { Adds s due result }
{
    if let Err(why) = opened(s) {
        return Outcome::kept(s, why);
    }
    let Some(place) = moves::list::lowest_free(s) else {
        return Outcome::kept(s, Refusal::Full);
    };
    let uses = s.timers[place.0 as usize].uses;
    Outcome::given(
        moves::list::touched(s, place, Life::Live { word: 0, due }),
        Reply::Added(Handle { place, uses }),
    )
}

// Sets a live timer to another deadline, fired or not.
pub fn reset(s: Set, handle: Handle, due: u64) -> Outcome<Set, Reply>
    ensures { Resets s handle due result }
{
    let t = match entered(s, handle) {
        Ok(t) => t,
        Err(why) => return Outcome::kept(s, why),
    };
    Outcome::given(
        moves::list::touched(s, handle.place, t.reset_to(due)),
        Reply::Done,
    )
}

// Cancels a live timer: its handle is dead from now on.
pub fn cancel(s: Set, handle: Handle) -> Outcome<Set, Reply>
    ensures { Cancels s handle result }
{
    let word = match entered(s, handle) {
        Ok(t) => t.word,
        Err(why) => return Outcome::kept(s, why),
    };
    Outcome::given(
        moves::list::touched(s, handle.place, Life::Cancelled { word }),
        Reply::Done,
    )
}

// Makes every waiting update, the newest first.
pub fn drain(s: Set) -> Outcome<Set, Reply>
    ensures { Drains s result }
{
    if let Err(why) = opened(s) {
        return Outcome::kept(s, why);
    }
    Outcome::given(moves::updates::drained(s), Reply::Done)
}

// Reports the timers whose entries are due at the reading, without a drain.
pub fn advance(s: Set, reading: u64, list: &mut [u64]) -> Outcome<Set, Reply>
    ensures { Advances s reading list.old result list.new }
{
    if let Err(why) = opened(s) {
        return Outcome::kept(s, why);
    }
    if list.len() < heap::CAP {
        return Outcome::kept(s, Refusal::ShortList);
    }
    let Ran {
        set,
        reported,
        popped,
    } = moves::rings::advanced(s, reading, list);
    Outcome::given(set, Reply::Ran { reported, popped })
}

// A drain, then an advance: reports the timers that are owed and due.
pub fn turn(s: Set, reading: u64, list: &mut [u64]) -> Outcome<Set, Reply>
    ensures { Turns s reading list.old result list.new }
{
    if let Err(why) = opened(s) {
        return Outcome::kept(s, why);
    }
    if list.len() < heap::CAP {
        return Outcome::kept(s, Refusal::ShortList);
    }
    let Ran {
        set,
        reported,
        popped,
    } = moves::rings::advanced(moves::updates::drained(s), reading, list);
    Outcome::given(set, Reply::Ran { reported, popped })
}

// When the head of the heap is due, if there is one.
pub fn next_wake(s: Set) -> Outcome<Set, Reply>
    ensures { Wakes s result }
{
    if let Err(why) = guarded(s) {
        return Outcome::kept(s, why);
    }
    match heap::peek_sound(s.heap) {
        Some(head) => Outcome::given(s, Reply::Wake(Some(head.at))),
        None => Outcome::given(s, Reply::Wake(None)),
    }
}

// Whether a live timer has fired, is gone or is pending.
pub fn poll(s: Set, handle: Handle) -> Outcome<Set, Reply>
    ensures { Polls s handle result }
{
    let t = match met(s, handle) {
        Ok(t) => t,
        Err(why) => return Outcome::kept(s, why),
    };
    Outcome::given(s, Reply::Found(word::poll(t.word)))
}

// Closes the set: every timer that waits or has an entry is gone.
pub fn close(s: Set) -> Outcome<Set, Reply>
    ensures { Closes s result }
{
    if let Err(why) = opened(s) {
        return Outcome::kept(s, why);
    }
    Outcome::given(moves::shut::closed(s), Reply::Done)
}

// A tick of an interval's timer that has fired: answers its deadline, and sets it to the next one.
pub fn tick(
    s: Set,
    handle: Handle,
    policy: Policy,
    period: u64,
    reading: u64,
) -> Outcome<Set, Reply>
    ensures { Ticks s handle policy period reading result }
{
    let t = match entered(s, handle) {
        Ok(t) => t,
        Err(why) => return Outcome::kept(s, why),
    };
    if !word::fired(t.word) {
        return Outcome::kept(s, Refusal::NotFired);
    }
    let next = match interval::next_deadline(policy, t.due, period, reading) {
        Ok(next) => next,
        Err(why) => return Outcome::kept(s, why),
    };
    Outcome::given(
        moves::list::touched(s, handle.place, t.reset_to(next)),
        Reply::Ticked(t.due),
    )
}

// Resets an interval's timer to a period after the reading, fired or not.
pub fn restart(s: Set, handle: Handle, period: u64, reading: u64) -> Outcome<Set, Reply>
    ensures { Restarts s handle period reading result }
{
    let t = match entered(s, handle) {
        Ok(t) => t,
        Err(why) => return Outcome::kept(s, why),
    };
    let next = match interval::restarted(period, reading) {
        Ok(next) => next,
        Err(why) => return Outcome::kept(s, why),
    };
    Outcome::given(
        moves::list::touched(s, handle.place, t.reset_to(next)),
        Reply::Done,
    )
}

// Any call: its own function makes it.
#[tactic(auto, unfolding(crate::specs::Calls::step))]
pub fn perform(s: Set, call: Call, list: &mut [u64]) -> Outcome<Set, Reply>
    ensures { Performs s call list.old result list.new }
{
    match call {
        Call::Add { due } => add(s, due),
        Call::Reset { handle, due } => reset(s, handle, due),
        Call::Cancel { handle } => cancel(s, handle),
        Call::Drain => drain(s),
        Call::Advance { reading } => advance(s, reading, list),
        Call::Turn { reading } => turn(s, reading, list),
        Call::NextWake => next_wake(s),
        Call::Poll { handle } => poll(s, handle),
        Call::Close => close(s),
        Call::Tick {
            handle,
            policy,
            period,
            reading,
        } => tick(s, handle, policy, period, reading),
        Call::Restart {
            handle,
            period,
            reading,
        } => restart(s, handle, period, reading),
    }
}

// What the handle itself says, which is the second half of both doors: a dead one refuses the call.
fn named(s: Set, handle: Handle) -> Result<Timing, Refusal>
    ensures { Finds s handle result }
{
    let t = s
        .timers
        .get(handle.place.0 as usize)
        .ok_or(Refusal::DeadHandle)?;
    match t.life {
        Life::Live { word, due } if t.uses == handle.uses => Ok(Timing { word, due }),
        _ => Err(Refusal::DeadHandle),
    }
}
