// Each public call and query made once, on a set in a state that is asked for, for the measurement of the stack in bench/: a set that
// holds enums cannot be lent to Rust or C, so what is exported makes its set itself, and answers one number.
//
// Before the call and after it a lent number is written to. Whoever measures lends numbers that it can see written to, and so tells
// what the call used from what was used to make the set and to look at the answer.
#![tactic(auto)]

ghost use Rattle.std.specs.Prelude.{◌≡◌};
ghost use Rattle.depths.specs.Rules.{code_of, handle_at, call_in, made_of, each_of, built_of};
ghost use Rattle.depths.specs.Promises.{Tells, Fresh, Adds, Resets, Cancels, Drains, Advances, Turns, Wakes, Polls, Closes, Ticks, Restarts, TellsLeft, TellsLeast, Performs};

use heap::Place;
use interval::Policy;
use refusals::Refusal;
use refusals::outcome::Outcome;
use state::{Handle, Set};
use timers::{Call, Reply};

// A fresh set.
#[unsafe(no_mangle)]
pub extern "C" fn depth_fresh(before: &mut u64, after: &mut u64) -> u64
    ensures { Fresh result before.new after.new }
{
    *before = 1;
    let set = state::fresh();
    *after = 1;
    told(Outcome::given(set, Reply::Done))
}

#[unsafe(no_mangle)]
pub extern "C" fn depth_add(stages: u64, due: u64, before: &mut u64, after: &mut u64) -> u64
    ensures { Adds stages due result before.new after.new }
{
    let s = built(stages);
    *before = 1;
    let a = timers::add(s, due);
    *after = 1;
    told(a)
}

#[unsafe(no_mangle)]
pub extern "C" fn depth_reset(
    stages: u64,
    place: u16,
    due: u64,
    before: &mut u64,
    after: &mut u64,
) -> u64
    ensures { Resets stages place due result before.new after.new }
{
    let s = built(stages);
    *before = 1;
    let a = timers::reset(s, handle(place), due);
    *after = 1;
    told(a)
}

#[unsafe(no_mangle)]
pub extern "C" fn depth_cancel(stages: u64, place: u16, before: &mut u64, after: &mut u64) -> u64
    ensures { Cancels stages place result before.new after.new }
{
    let s = built(stages);
    *before = 1;
    let a = timers::cancel(s, handle(place));
    *after = 1;
    told(a)
}

#[unsafe(no_mangle)]
pub extern "C" fn depth_drain(stages: u64, before: &mut u64, after: &mut u64) -> u64
    ensures { Drains stages result before.new after.new }
{
    let s = built(stages);
    *before = 1;
    let a = timers::drain(s);
    *after = 1;
    told(a)
}

#[unsafe(no_mangle)]
pub extern "C" fn depth_advance(stages: u64, reading: u64, before: &mut u64, after: &mut u64) -> u64
    ensures { Advances stages reading result before.new after.new }
{
    let s = built(stages);
    let mut list = [0u64; heap::CAP];
    *before = 1;
    let a = timers::advance(s, reading, &mut list);
    *after = 1;
    told(a)
}

#[unsafe(no_mangle)]
pub extern "C" fn depth_turn(stages: u64, reading: u64, before: &mut u64, after: &mut u64) -> u64
    ensures { Turns stages reading result before.new after.new }
{
    let s = built(stages);
    let mut list = [0u64; heap::CAP];
    *before = 1;
    let a = timers::turn(s, reading, &mut list);
    *after = 1;
    told(a)
}

#[unsafe(no_mangle)]
pub extern "C" fn depth_next_wake(stages: u64, before: &mut u64, after: &mut u64) -> u64
    ensures { Wakes stages result before.new after.new }
{
    let s = built(stages);
    *before = 1;
    let a = timers::next_wake(s);
    *after = 1;
    told(a)
}

#[unsafe(no_mangle)]
pub extern "C" fn depth_poll(stages: u64, place: u16, before: &mut u64, after: &mut u64) -> u64
    ensures { Polls stages place result before.new after.new }
{
    let s = built(stages);
    *before = 1;
    let a = timers::poll(s, handle(place));
    *after = 1;
    told(a)
}

#[unsafe(no_mangle)]
pub extern "C" fn depth_close(stages: u64, before: &mut u64, after: &mut u64) -> u64
    ensures { Closes stages result before.new after.new }
{
    let s = built(stages);
    *before = 1;
    let a = timers::close(s);
    *after = 1;
    told(a)
}

// The tick skips.
#[unsafe(no_mangle)]
pub extern "C" fn depth_tick(
    stages: u64,
    place: u16,
    period: u64,
    reading: u64,
    before: &mut u64,
    after: &mut u64,
) -> u64
    ensures { Ticks stages place period reading result before.new after.new }
{
    let s = built(stages);
    *before = 1;
    let a = timers::tick(s, handle(place), Policy::Skip, period, reading);
    *after = 1;
    told(a)
}

#[unsafe(no_mangle)]
pub extern "C" fn depth_restart(
    stages: u64,
    place: u16,
    period: u64,
    reading: u64,
    before: &mut u64,
    after: &mut u64,
) -> u64
    ensures { Restarts stages place period reading result before.new after.new }
{
    let s = built(stages);
    *before = 1;
    let a = timers::restart(s, handle(place), period, reading);
    *after = 1;
    told(a)
}

#[unsafe(no_mangle)]
pub extern "C" fn depth_time_left(
    stages: u64,
    place: u16,
    reading: u64,
    before: &mut u64,
    after: &mut u64,
) -> u64
    ensures { TellsLeft stages place reading result before.new after.new }
{
    let s = built(stages);
    *before = 1;
    let l = timers::left::time_left(s, handle(place), reading);
    *after = 1;
    code(l)
}

#[unsafe(no_mangle)]
pub extern "C" fn depth_least_left(
    stages: u64,
    reading: u64,
    before: &mut u64,
    after: &mut u64,
) -> u64
    ensures { TellsLeast stages reading result before.new after.new }
{
    let s = built(stages);
    *before = 1;
    let l = timers::left::least_left(s, reading);
    *after = 1;
    code(l)
}

// Any call, by its number.
#[unsafe(no_mangle)]
pub extern "C" fn depth_perform(
    stages: u64,
    number: u8,
    place: u16,
    value: u64,
    before: &mut u64,
    after: &mut u64,
) -> u64
    ensures { Performs stages number place value result before.new after.new }
{
    let s = built(stages);
    let call = call_of(number, place, value);
    let mut list = [0u64; heap::CAP];
    *before = 1;
    let a = timers::perform(s, call, &mut list);
    *after = 1;
    told(a)
}

// What is answered: 0 where the call is accepted, the number of its refusal, and 100 where the set is not sound. It looks at the whole
// set, so that no part of the call goes unused.
fn told(a: Outcome<Set, Reply>) -> u64
    ensures { Tells a result }
{
    if state::sound(a.state) {
        code(a.answer)
    } else {
        100
    }
}

// The number of a refusal; 0 for an answer.
fn code<T: Copy>(answer: Result<T, Refusal>) -> u64
    ensures { result ≡ code_of answer }
{
    match answer {
        Ok(_) => 0,
        Err(why) => refusals::number(why) as u64,
    }
}

// The first handle of a place.
fn handle(place: u16) -> Handle
    ensures { result ≡ handle_at place }
{
    Handle {
        place: Place(place),
        uses: 0,
    }
}

// The call with a number: those of a record, then tick and interval reset.
#[tactic(auto, unfolding(crate::specs::Rules::call_in))]
fn call_of(number: u8, place: u16, value: u64) -> Call
    ensures { result ≡ call_in number place value }
{
    let h = handle(place);
    match number {
        0 => Call::Add { due: value },
        1 => Call::Reset {
            handle: h,
            due: value,
        },
        2 => Call::Cancel { handle: h },
        3 => Call::Drain,
        4 => Call::Advance { reading: value },
        5 => Call::Turn { reading: value },
        6 => Call::NextWake,
        7 => Call::Poll { handle: h },
        8 => Call::Close,
        9 => Call::Tick {
            handle: h,
            policy: Policy::Skip,
            period: value,
            reading: value,
        },
        _ => Call::Restart {
            handle: h,
            period: value,
            reading: value,
        },
    }
}

// A fresh set after four stages, a byte each, the lowest first.
fn built(stages: u64) -> Set
    ensures { result ≡ built_of stages }
{
    let a = each(state::fresh(), stages);
    let b = each(a, stages / 256);
    let c = each(b, stages / 65_536);
    each(c, stages / 16_777_216)
}

// A stage, the low byte of a number: the call whose number is in its lower half is made for every place, or for all but as many of
// the first as its upper half says.
fn each(mut s: Set, stage: u64) -> Set
    ensures { result ≡ each_of stage s }
{
    let number = (stage % 16) as u8;
    let first = (stage / 16 % 16) as u16;
    for place in first..heap::CAP as u16 {
        s = made(s, number, place);
    }
    s
}

// A call for a place, with its number and one more as the deadline or the reading.
fn made(s: Set, number: u8, place: u16) -> Set
    ensures { result ≡ made_of s number place }
{
    let mut list = [0u64; heap::CAP];
    timers::perform(s, call_of(number, place, place as u64 + 1), &mut list).state
}
