// Why a call is refused: the table of refusals, one case a number. A name says what is wrong, and `number` gives the number
// that the outside world knows.
#![tactic(auto)]

pub mod fault;
pub mod outcome;
pub mod time;

ghost use Rattle.refusals.specs.Numbers.{Numbers};

use crate::fault::Fault;

#[derive(Clone, Copy)]
pub enum Refusal {
    // the state handed in is not sound: its first fault
    Unsound(Fault),
    // the set of timers is closed
    Closed,
    // the handle names no live timer: its place is out of range, free, retired or cancelled, or has another use number
    DeadHandle,
    // the heap holds as many entries as it can, or every place that is not retired is taken
    Full,
    // the list lent for reports is too short
    ShortList,
    // a sum of times is above 2^64-1
    TimeOverflow,
    // the clock runs and the raw counter is below its start
    CounterBehind,
    // a pause while paused, a resume or an advance while running
    WrongMode,
    // a late tick that skips, with a period of 0
    ZeroPeriod,
    // a tick of a timer that has not fired
    NotFired,
    // the heap slot was never made, or is empty
    VacantSlot,
    // a record with an unknown operation, or with an unused field that is not zero
    BadRecord,
    // the bytes are not an image: their length, a spare bit or a field
    BadImage,
}

// The number of a refusal in the table.
pub fn number(r: Refusal) -> u8
    ensures { Numbers r result }
{
    match r {
        Refusal::Unsound(_) => 1,
        Refusal::Closed => 2,
        Refusal::DeadHandle => 3,
        Refusal::Full => 4,
        Refusal::ShortList => 5,
        Refusal::TimeOverflow => 6,
        Refusal::CounterBehind => 7,
        Refusal::WrongMode => 8,
        Refusal::ZeroPeriod => 9,
        Refusal::NotFired => 10,
        Refusal::VacantSlot => 11,
        Refusal::BadRecord => 12,
        Refusal::BadImage => 13,
    }
}
