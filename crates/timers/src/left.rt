// How long is left: the two queries of the service display. They take a set and hand none back, so asking changes nothing, and they
// are no calls that `perform` makes.
ghost use Rattle.std.specs.Prelude.{◌≡◌};
ghost use Rattle.timers.specs.Left.{pending_in, soonest_of, said_earliest};
ghost use Rattle.timers.specs.Promises.{TellsLeft, TellsLeast};

use refusals::Refusal;
use state::{Handle, Life, Set};

// How long a live timer has to go: its deadline minus the reading, fired or not.
pub fn time_left(s: Set, handle: Handle, reading: u64) -> Result<i64, Refusal>
    ensures { TellsLeft s handle reading result }
{
    let t = crate::entered(s, handle)?;
    refusals::time::difference(t.due, reading)
}

// The least that any live timer which has not fired has to go, or that there is none.
pub fn least_left(s: Set, reading: u64) -> Result<Option<i64>, Refusal>
    ensures { TellsLeast s reading result }
{
    crate::opened(s)?;
    soonest(s)
        .map(|due| refusals::time::difference(due, reading))
        .transpose()
}

// The earliest deadline of the live timers that have not fired, those that wait for a drain included.
fn soonest(s: Set) -> Option<u64>
    ensures { said_earliest result ≡ soonest_of s }
{
    s.timers.iter().filter_map(|t| pending(t.life)).min()
}

// The deadline of a live timer that has not fired.
fn pending(life: Life) -> Option<u64>
    ensures { said_earliest result ≡ pending_in life }
{
    match life {
        Life::Live { word, due } if !word::fired(word) => Some(due),
        _ => None,
    }
}
