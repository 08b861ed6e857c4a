// Every refusal of the table but 12, which is that of a record, and the calls and queries that give it: on sets, with report lists, on
// heaps used alone and on clocks, built by hand. Each line says what the call is made on, then what it answered.
#![tactic(auto)]

use std::io;

mod alone;
mod calls;
mod clocks;
mod left;
mod lists;
mod sets;

fn main(rt: HostRuntime) -> io::Result<()> {
    calls::run(&rt)?;
    left::run(&rt)?;
    lists::run(&rt)?;
    alone::run(&rt)?;
    clocks::run(&rt)
}
