// Whole rounds of calls on a set of timers, for the measurement of speed in bench/: a set that holds enums cannot be lent to Rust
// or C, so what is exported makes its set and all its calls itself, and answers one number.
//
// As many timers are added as there are places, due at 1, 2, 3 and so on. In each round the reading goes up by the number of timers
// that are to be due, a turn is made, and whoever is reported is reset, in the order of the reports, to the deadline after the last
// one that was given. So the deadlines are always as many numbers in a row as there are places, the first of them one above the
// reading, and each turn finds exactly as many timers due as were asked for.
#![tactic(auto)]

ghost use Rattle.std.specs.Prelude.{◌≡◌, length};
ghost use Rattle.state.specs.Handles.{said_named};
ghost use Rattle.timers.specs.Calls.{said};
ghost use Rattle.rounds.specs.Rules.{mixed_of, counts_in, start_of, reset_by, reset_of, reset_from};
ghost use Rattle.rounds.specs.Promises.{Runs, Rounds};

use refusals::Refusal;
use state::{Handle, Set};
use timers::Reply;

// What is carried from one call to the next: the set, the deadline that was given last, and the checksum so far.
#[derive(Clone, Copy)]
pub struct Run {
    pub set: Set,
    pub last: u64,
    pub sum: u64,
}

// The counts of a turn.
#[derive(Clone, Copy)]
pub struct Counts {
    pub reported: usize,
    pub popped: usize,
}

// Makes `turns` rounds with `due` of the timers due in each, all of them where `due` is more, and answers the checksum of all that
// was reported. (Times wrap at 2^64, which takes more turns than can be made.)
#[unsafe(no_mangle)]
pub extern "C" fn rounds_run(due: u64, turns: u64) -> u64
    ensures { Runs due turns result }
{
    let step = due.min(heap::CAP as u64);
    let mut list = [0u64; heap::CAP];
    let mut run = Run {
        set: started(),
        last: heap::CAP as u64,
        sum: 0,
    };
    let mut reading: u64 = 0;
    for _ in 0..turns {
        reading = reading.wrapping_add(step);
        run = round(run, reading, &mut list);
    }
    run.sum
}

// A turn at a reading: its counts go into the checksum, and whoever is reported is reset.
fn round(run: Run, reading: u64, list: &mut [u64; heap::CAP]) -> Run
    ensures { Rounds run reading list.old result list.new }
{
    let a = timers::turn(run.set, reading, list);
    let c = counted(a.answer);
    let sum = mixed(mixed(run.sum, c.reported as u64), c.popped as u64);
    reset_all(
        Run {
            set: a.state,
            sum,
            ..run
        },
        &list[..c.reported.min(heap::CAP)],
    )
}

// A set that is full, and drained: the timers are due at 1, 2, 3 and so on.
fn started() -> Set
    ensures { result ≡ start_of }
{
    let mut g = state::fresh();
    for due in 1..=heap::CAP as u64 {
        g = timers::add(g, due).state;
    }
    timers::drain(g).state
}

// Resets the timers that are reported, each to the deadline after the last one.
fn reset_all(mut run: Run, words: &[u64]) -> Run
    ensures { result ≡ reset_from (length words.now) words.now 0 run }
{
    for word in words {
        run = reset_one(run, *word);
    }
    run
}

// Resets the timer that a report names to the deadline after the last one.
fn reset_one(run: Run, word: u64) -> Run
    ensures { result ≡ reset_of run word }
{
    let last = run.last.wrapping_add(1);
    Run {
        set: reset_named(run.set, state::handle_of(word), last),
        last,
        sum: mixed(run.sum, word),
    }
}

// The set with the timer reset that is named; where nobody is, as it was.
fn reset_named(s: Set, named: Option<Handle>, due: u64) -> Set
    ensures { result ≡ reset_by s (said_named named) due }
{
    match named {
        None => s,
        Some(handle) => timers::reset(s, handle, due).state,
    }
}

// The checksum with one more number: three times what it was, and the number, so that the order counts.
fn mixed(sum: u64, number: u64) -> u64
    ensures { result ≡ mixed_of sum number }
{
    sum.wrapping_mul(3).wrapping_add(number)
}

// The counts that a turn answers.
fn counted(answer: Result<Reply, Refusal>) -> Counts
    ensures { result ≡ counts_in (said answer) }
{
    match answer {
        Ok(Reply::Ran { reported, popped }) => Counts { reported, popped },
        _ => Counts {
            reported: 0,
            popped: 0,
        },
    }
}
