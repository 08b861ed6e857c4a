// The rules of an interval: when a timer that ticks goes off next. A tick that comes late is made up for by one of three
// policies. Times are numbers of nanoseconds.
#![tactic(auto)]

ghost use Rattle.std.specs.Prelude.{◌≤◌};
ghost use Rattle.interval.specs.Promises.{IsLate, Skips, Ticks, Restarts};

use refusals::Refusal;

// How much later than its deadline a tick may come and still be on time: 5 ms.
const GRACE: u64 = 5_000_000;

// What becomes of the ticks that a late one has missed.
#[derive(Clone, Copy)]
pub enum Policy {
    // they follow at once, each a period after the last
    Burst,
    // the next one comes a period after this one
    Delay,
    // they are left out, and the next one keeps the old beat
    Skip,
}

// The deadline after a tick: `due` is the deadline that the tick answers, `reading` the time at which it is made.
pub fn next_deadline(policy: Policy, due: u64, period: u64, reading: u64) -> Result<u64, Refusal>
    ensures { Ticks policy due period reading result }
{
    if is_late(due, reading) {
        match policy {
            Policy::Burst => refusals::time::sum(due, period),
            Policy::Delay => refusals::time::sum(reading, period),
            Policy::Skip => skipped(due, period, reading),
        }
    } else {
        refusals::time::sum(due, period)
    }
}

// The deadline after an interval is reset, whether its timer has fired or not.
pub fn restarted(period: u64, reading: u64) -> Result<u64, Refusal>
    ensures { Restarts period reading result }
{
    refusals::time::sum(reading, period)
}

// Whether the reading is past the deadline by more than the grace. No reading is late where the sum would wrap.
pub fn is_late(due: u64, reading: u64) -> bool
    ensures { IsLate due reading result }
{
    due.checked_add(GRACE).is_some_and(|last| last < reading)
}

// The next deadline on the old beat that is after the reading.
fn skipped(due: u64, period: u64, reading: u64) -> Result<u64, Refusal>
    requires { due ≤ reading }
    ensures { Skips due period reading result }
{
    if period == 0 {
        return Err(Refusal::ZeroPeriod);
    }
    let time = refusals::time::sum(reading, period)?;
    Ok(time - (reading - due) % period)
}
