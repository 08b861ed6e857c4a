// What the calls on a set of timers do to it: a timer is pushed on the waiting list (arc_list.rs), the updates are drained, entries
// are popped and their timers rung, the set is closed (timer/mod.rs). The calls themselves, with their refusals, are in `timers`.
#![tactic(auto)]

pub mod list;
pub mod rings;
pub mod shut;
pub mod updates;
