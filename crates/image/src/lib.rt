// The image of a set in lent bytes, as docs/IMAGE.md has it: `read` takes the set whose image the bytes are, and `write` writes the
// image of a set. Both are refused where there is no image to be had, and then no byte was written.
//
// What is refused with 13 is found before the soundness of the set is asked. Reading and writing are one pass over the bytes each.
#![tactic(auto)]

mod arrays;

ghost use Rattle.std.specs.Prelude.{◌≡◌, length};
ghost use Rattle.image.specs.Image.{size};
ghost use Rattle.image.specs.Calls.{told_reading, barred};
ghost use Rattle.image.specs.Promises.{FindsSet, WritesSet, Reads, Writes};

use cells::{Cell, Header};
use heap::{Entry, Heap, SlabSlot};
use refusals::Refusal;
use refusals::outcome::Outcome;
use state::{Set, Timer};

// Where the entries, the slots and the timers begin: `entries_at`, `slots_at` and `timers_at` of specs/Image.antt.
const ENTRIES: usize = Header::SIZE;

const SLOTS: usize = ENTRIES + heap::CAP * Entry::SIZE;

const TIMERS: usize = SLOTS + heap::CAP * SlabSlot::SIZE;

// How many bytes an image has: `size` of specs/Image.antt.
pub const SIZE: usize = TIMERS + heap::CAP * Timer::SIZE;

// Reads an image: bytes that are none are refused with 13, and then the image of a set that is not sound with 1. Beside a refusal
// stands the fresh set.
pub fn read(bytes: &[u8]) -> Outcome<Set, ()>
    ensures { Reads bytes.now result }
{
    if bytes.len() != SIZE {
        return refused(Refusal::BadImage);
    }
    let Some(set) = set_at(bytes) else {
        return refused(Refusal::BadImage);
    };
    if let Err(fault) = state::fault::first_fault(set) {
        return refused(Refusal::Unsound(fault));
    }
    Outcome::given(set, ())
}

// Writes every byte of an image: bytes of another length are refused with 13, and then a set that is not sound with 1.
pub fn write(s: Set, out: &mut [u8]) -> Result<(), Refusal>
    ensures { Writes s out.old out.new result }
{
    if out.len() != SIZE {
        return Err(Refusal::BadImage);
    }
    state::fault::first_fault(s).map_err(Refusal::Unsound)?;
    put_set(s, out);
    Ok(())
}

// What is answered where nothing is read.
fn refused(why: Refusal) -> Outcome<Set, ()>
    ensures { told_reading result ≡ barred why }
{
    Outcome::kept(state::fresh(), why)
}

// The set that the bytes are read as, where all of it passes.
fn set_at(bytes: &[u8]) -> Option<Set>
    requires { length bytes.now ≡ size }
    ensures { FindsSet bytes.now result }
{
    let head = Header::read(bytes, 0).ok()?;
    let mut set = Set {
        heap: Heap {
            entries: [Entry::unused(); heap::CAP],
            len: head.len,
            slots: [SlabSlot::unused(); heap::CAP],
            made: head.made,
            free: head.free,
        },
        timers: [Timer::unused(); heap::CAP],
        first: head.first,
        closed: head.closed,
    };
    arrays::read_rows(bytes, ENTRIES, &mut set.heap.entries, head.len)?;
    arrays::read_rows(bytes, SLOTS, &mut set.heap.slots, head.made)?;
    arrays::read_rows(bytes, TIMERS, &mut set.timers, heap::CAP)?;
    Some(set)
}

// Writes the image of a set, every byte of it.
fn put_set(s: Set, out: &mut [u8])
    requires { length out.old ≡ size }
    ensures { WritesSet s out.new }
{
    let head = Header {
        closed: s.closed,
        first: s.first,
        len: s.heap.len,
        made: s.heap.made,
        free: s.heap.free,
    };
    let at = head.put(out, 0);
    let at = arrays::put_rows(out, at, &s.heap.entries, s.heap.len);
    let at = arrays::put_rows(out, at, &s.heap.slots, s.heap.made);
    arrays::put_rows(out, at, &s.timers, heap::CAP);
}
