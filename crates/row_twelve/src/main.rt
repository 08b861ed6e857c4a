// Row 12 of the bench sheet, run: a set takes as many timers as it has places, and no more until a drain has freed one. Each line is
// a call and what it answered.
#![tactic(auto)]

use heap::Place;
use refusals::Refusal;
use state::{Handle, Set};
use std::io;
use timers::Reply;

// Writes a call and what it answered, and ends the line.
fn tell(rt: &impl Print, call: &str, answer: Result<Reply, Refusal>) -> io::Result<()> {
    match answer {
        Ok(Reply::Added(handle)) => println!(rt; "{call} {}:{}", handle.place.0, handle.uses),
        Ok(Reply::Done) => println!(rt; "{call} done"),
        Ok(_) => println!(rt; "{call} something else"),
        Err(why) => println!(rt; "{call} refused {}", refusals::number(why)),
    }
}

// Adds a timer, tells the answer, and hands the set on.
fn add(rt: &impl Print, s: Set) -> io::Result<Set> {
    let a = timers::add(s, 10);
    tell(rt, "add", a.answer)?;
    Ok(a.state)
}

// Adds as many timers as there are places.
fn filled(rt: &impl Print, mut s: Set) -> io::Result<Set> {
    for _ in 0..heap::CAP {
        s = add(rt, s)?;
    }
    Ok(s)
}

fn main(rt: HostRuntime) -> io::Result<()> {
    let s = add(&rt, filled(&rt, state::fresh())?)?;
    let fifth = Handle {
        place: Place(5),
        uses: 0,
    };
    let c = timers::cancel(s, fifth);
    tell(&rt, "cancel", c.answer)?;
    let u = add(&rt, c.state)?;
    let d = timers::drain(u);
    tell(&rt, "drain", d.answer)?;
    add(&rt, d.state)?;
    Ok(())
}
