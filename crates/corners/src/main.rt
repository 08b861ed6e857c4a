// Sets to which no call leads, or none in a lifetime, built by hand, and what the calls answer: sound ones are answered as the rules
// say, and unsound ones, one at least for each clause of soundness, are refused with 1 and their first fault. Each line says what the
// set is, then what was answered.
#![tactic(auto)]

use std::io;

mod faults;
mod sets;
mod sound;
mod unsound;

fn main(rt: HostRuntime) -> io::Result<()> {
    sound::run(&rt)?;
    unsound::run(&rt)?;
    faults::run(&rt)
}
