// The probe: makes recorded calls on the proved crates and prints what each answers and what it leaves behind, so that a program in
// Rust that takes the same records can be held against it, line by line. It keeps a set of timers, a heap of its own and a clock.
// `oracle/FORMAT.md` has the form of a record and of a line. Where a read or a write fails, the probe ends with that error; after a
// read that failed the lines of all whole records that came before are still written.
#![tactic(auto)]

mod clocks;
mod heaps;
mod record;
mod sets;
mod text;

ghost use Rattle.std.specs.Prelude.{◌≤◌, length};

use clock::Clock;
use heap::Heap;
use record::Record;
use state::Set;
use std::io;
use std::io::Read;
use text::Output;

// How many bytes are read at a time, in whole records.
const PIECE: usize = 65_536;

// What the calls are made on.
#[derive(Clone, Copy)]
struct World {
    set: Set,
    heap: Heap,
    clock: Clock,
}

// The world at the start, and after the record that begins anew.
fn fresh() -> World {
    World {
        set: state::fresh(),
        heap: heap::fresh(),
        clock: clock::fresh(0),
    }
}

// Makes the call of a record and tells of it: 0 to 15 are for the set, 16 to 23 for the heap, the rest for the clock, but 31 begins
// anew.
fn step(w: &mut World, r: Record, out: &mut Output) {
    match r.op {
        0..=15 => sets::told(&mut w.set, r, out),
        16..=23 => heaps::told(&mut w.heap, r, out),
        31 => {
            *w = fresh();
            out.bytes(b"31 0\n")
        }
        _ => clocks::told(&mut w.clock, r, out),
    }
}

// Makes the calls of all the whole records in a piece of the input.
fn steps(w: &mut World, piece: &[u8], out: &mut Output) {
    let (records, _) = piece.as_chunks();
    for bytes in records {
        step(w, Record::from(bytes), out);
    }
}

// Reads until the piece is full, the input ends or a read fails, and answers how many bytes came and whether the reads went well.
fn read_full<R: Read>(input: &mut R, piece: &mut [u8]) -> (usize, io::Result<()>)
    ensures { result.0 ≤ length piece.new }
{
    let mut came = 0;
    while came < piece.len() {
        match input.read(&mut piece[came..]) {
            Ok(0) => break,
            Ok(more) => came += more,
            Err(e) => return (came, Err(e)),
        }
    }
    (came, Ok(()))
}

// Reads a piece of the input and makes its calls, and answers whether there may be more to read. A piece that is not full is the
// last, and what it has behind its last whole record is left out.
fn next_piece<R: Read>(w: &mut World, input: &mut R, out: &mut Output) -> io::Result<bool> {
    let mut piece = [0u8; PIECE];
    let (came, read) = read_full(input, &mut piece);
    steps(w, &piece[..came], out);
    read?;
    Ok(came == PIECE)
}

// Reads to the end of the input. A proved loop has to end and nothing says that the input does, so the turns are counted, up to a
// number that no run uses up.
fn replay<R: Read>(input: &mut R, out: &mut Output) -> io::Result<()> {
    let mut w = fresh();
    for _ in 0..u64::MAX {
        if !next_piece(&mut w, input, out)? {
            break;
        }
    }
    Ok(())
}

fn main(rt: HostRuntime) -> io::Result<()> {
    let mut input = rt.stdin();
    let mut out = Output::new(rt.stdout());
    let replayed = replay(&mut input, &mut out);
    out.flush()?;
    replayed
}
