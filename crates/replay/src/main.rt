// Replays a session: records of 14 bytes from standard input, in whatever pieces they come, on a fresh set of timers. It prints how many
// timers a set has, one line for each record, and `end`, or `end short` where the input ends inside a record. Where a read fails the
// last line is `failed read`; where a write fails nothing more is written, and the program ends with that error. So an output that does
// not end in one of the first two is not whole.
#![tactic(auto)]

use heap::CAP;
use records::LINE;
use state::Set;
use std::io::{Read, Write};
use std::{fmt, io};

// How an input ends: after its last record, inside a record, or in a read that fails.
#[derive(Clone, Copy)]
enum Ending {
    Whole,
    Short,
    FailedRead,
}

impl fmt::Display for Ending {
    // The last line of a replay. Its newline is part of it, so that the line is one write.
    fn fmt<W: fmt::Write>(&self, f: &mut fmt::Formatter<W>) -> fmt::Result {
        f.write_str(match self {
            Ending::Whole => "end\n",
            Ending::Short => "end short\n",
            Ending::FailedRead => "failed read\n",
        })
    }
}

// Reads one record, in the pieces in which it comes, or finds how the input ends.
fn read_record<R: Read>(input: &mut R) -> Result<[u8; 14], Ending> {
    let mut bytes = [0u8; 14];
    let mut came = 0;
    while came < bytes.len() {
        match input.read(&mut bytes[came..]) {
            Ok(0) if came == 0 => return Err(Ending::Whole),
            Ok(0) => return Err(Ending::Short),
            Ok(more) => came += more,
            Err(_) => return Err(Ending::FailedRead),
        }
    }
    Ok(bytes)
}

// Answers one record with its line.
fn answered<W: Write>(s: &mut Set, bytes: [u8; 14], output: &mut W) -> io::Result<()> {
    let mut list = [0u64; CAP];
    let a = records::replay(*s, bytes, &mut list);
    *s = a.state;
    let mut line = [0u8; LINE];
    let n = records::write_line(a.answer, &list, &mut line);
    output.write_all(&line[..n])
}

// Replays all records, and answers how the input ends. A proved loop has to end, and nothing says that the input does; so it counts its
// turns, up to a number that no input uses up.
fn replayed<R: Read, W: Write>(input: &mut R, output: &mut W) -> io::Result<Option<Ending>> {
    let mut s = state::fresh();
    for _ in 0..u64::MAX {
        match read_record(input) {
            Ok(bytes) => answered(&mut s, bytes, output)?,
            Err(ending) => return Ok(Some(ending)),
        }
    }
    Ok(None)
}

fn main(rt: HostRuntime) -> io::Result<()> {
    let mut input = rt.stdin();
    let mut output = rt.stdout();
    writeln!(output, "timers {CAP}")?;
    if let Some(ending) = replayed(&mut input, &mut output)? {
        write!(output, "{ending}")?;
    }
    Ok(())
}
