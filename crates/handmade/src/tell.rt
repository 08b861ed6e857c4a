// What is written: plain text, and the answers of the calls. Each answer ends its line.
use heap::{Entry, Pushed, Removed};
use refusals::Refusal;
use refusals::fault::Fault;
use std::io;
use timers::Reply;
use word::Polled;

// What a call can answer where it is accepted.
pub trait Tell: Copy {
    // Writes it.
    fn tell(self, rt: &impl Print) -> io::Result<()>;
}

// Writes a text.
pub fn text(rt: &impl Print, s: &[u8]) -> io::Result<()> {
    rt.write_all(s)
}

// Writes what was asked, and what was answered or why it was refused, and ends the line.
pub fn answer<T: Tell>(rt: &impl Print, what: &[u8], r: Result<T, Refusal>) -> io::Result<()> {
    text(rt, what)?;
    match r {
        Ok(value) => value.tell(rt)?,
        Err(why) => refused(rt, why)?,
    }
    text(rt, b"\n")
}

// Writes the words of a list, and ends the line.
pub fn words(rt: &impl Print, list: &[u64]) -> io::Result<()> {
    for word in list {
        print!(rt; " {word}")?;
    }
    text(rt, b"\n")
}

// Writes a refusal by its number, and the fault that an unsound state is refused for.
fn refused(rt: &impl Print, why: Refusal) -> io::Result<()> {
    print!(rt; "refused {}", refusals::number(why))?;
    match why {
        Refusal::Unsound(f) => fault(rt, f),
        _ => Ok(()),
    }
}

// Writes a fault: its kind, and where it is.
fn fault(rt: &impl Print, f: Fault) -> io::Result<()> {
    let kind = match f {
        Fault::Count => "count",
        Fault::Position(_) => "position",
        Fault::Order(_) => "order",
        Fault::FreeChain(_) => "free chain",
        Fault::List(_) => "list",
        Fault::Place(_) => "place",
    };
    print!(rt; ", {kind} {}", refusals::fault::at(f))
}

impl Tell for () {
    // A change of a clock, which hands nothing else back.
    fn tell(self, rt: &impl Print) -> io::Result<()> {
        text(rt, b"done")
    }
}

impl Tell for u64 {
    // A time.
    fn tell(self, rt: &impl Print) -> io::Result<()> {
        print!(rt; "{self}")
    }
}

impl Tell for i64 {
    // A time that is left: its sign, and how far it is from zero.
    fn tell(self, rt: &impl Print) -> io::Result<()> {
        let sign = if self < 0 { "-" } else { "" };
        print!(rt; "{sign}{}", refusals::time::size(self))
    }
}

impl Tell for Option<i64> {
    // The least that is left, if any is.
    fn tell(self, rt: &impl Print) -> io::Result<()> {
        match self {
            Some(left) => left.tell(rt),
            None => text(rt, b"none"),
        }
    }
}

impl Tell for Entry {
    // The deadline and the slot.
    fn tell(self, rt: &impl Print) -> io::Result<()> {
        print!(rt; "{} in slot {}", self.at, self.slot.0)
    }
}

impl Tell for Option<Entry> {
    // The head of a heap, if it has one.
    fn tell(self, rt: &impl Print) -> io::Result<()> {
        match self {
            Some(head) => head.tell(rt),
            None => text(rt, b"nothing"),
        }
    }
}

impl Tell for Pushed {
    // The slot and the swaps.
    fn tell(self, rt: &impl Print) -> io::Result<()> {
        print!(rt; "slot {} swaps {}", self.slot.0, self.swaps)
    }
}

impl Tell for Removed {
    // The entry and the swaps.
    fn tell(self, rt: &impl Print) -> io::Result<()> {
        self.entry.tell(rt)?;
        print!(rt; " swaps {}", self.swaps)
    }
}

impl Tell for Option<Removed> {
    // What was popped, if anything was.
    fn tell(self, rt: &impl Print) -> io::Result<()> {
        match self {
            Some(popped) => popped.tell(rt),
            None => text(rt, b"nothing"),
        }
    }
}

impl Tell for Polled {
    // What a poll found.
    fn tell(self, rt: &impl Print) -> io::Result<()> {
        match self {
            Polled::Pending => text(rt, b"pending"),
            Polled::Fired => text(rt, b"fired"),
            Polled::Gone => text(rt, b"gone"),
        }
    }
}

impl Tell for Reply {
    // What a call on a set answered.
    fn tell(self, rt: &impl Print) -> io::Result<()> {
        match self {
            Reply::Added(handle) => print!(rt; "{}:{}", handle.place.0, handle.uses),
            Reply::Done => text(rt, b"done"),
            Reply::Ran { reported, popped } => print!(rt; "reported {reported} popped {popped}"),
            Reply::Wake(Some(at)) => print!(rt; "wake {at}"),
            Reply::Wake(None) => text(rt, b"no wake"),
            Reply::Found(found) => found.tell(rt),
            Reply::Ticked(at) => print!(rt; "ticked {at}"),
        }
    }
}
