// The cells of an image: its header, an entry, a slot and a timer as bytes. Each is put at an offset of lent bytes, and is read of the
// bytes from an offset on; `columns` tests by the tables of docs/IMAGE.md whether these pass. The three kinds of which there are whole
// arrays are a `Cell` each.
//
// Bytes pass exactly where they are those of a record whose numbers fit; what is read of bytes that pass has these bytes. What is
// read of others is a record all the same, which an `Err` hands out, and means nothing: `read` of a header and `read_any` of a cell do
// so, and `read` of a cell answers bytes that pass alone.
#![tactic(auto)]

mod columns;
mod parts;
#[cfg(test)]
mod tests;

ghost use Rattle.std.specs.Prelude.{◌+◌, ◌≤◌, ◌≡◌, ◌&&◌, Bool, cond, List, ℕ, length, Ok, Err};
ghost use Rattle.std.specs.Bool.{then_some};
ghost use Rattle.digits.specs.Promises.{Puts};
ghost use Rattle.heap.specs.Rules.{no_entry};
ghost use Rattle.state.specs.State.{no_timer};
ghost use Rattle.cells.specs.Cells.{entry_bytes, entry_of, slot_bytes, slot_of, zero_slot, timer_bytes, timer_of};
ghost use Rattle.cells.specs.Fine.{entry_clear, entry_in, slot_clear, slot_in, timer_clear, timer_in};
ghost use Rattle.cells.specs.Promises.{PutsHeader, FindsHeader, PutsEntry, FindsEntry, FindsAnyEntry, PutsSlot, FindsSlot, FindsAnySlot, PutsTimer, FindsTimer, FindsAnyTimer};

use heap::{Entry, Place, Pos, SlabSlot, Slot, SlotState};
use state::{Life, Timer, Waiting};

// A record of which an image has a whole array: an entry, a slot or a timer.
pub trait Cell: Copy {
    // How many bytes it takes.
    ghost SIZE: { ℕ };

    const SIZE: usize;

    // Its bytes.
    ghost bytes_of: { Self → List ℕ };

    // Of the bytes from an offset on: whether no spare bit is set, whether each field is in its range, and what they are read as.
    ghost clear: { List ℕ → ℕ → Bool };

    ghost within: { List ℕ → ℕ → Bool };

    ghost read_as: { List ℕ → ℕ → Self };

    // What is read of room that is not in use.
    ghost blank: { Self };

    // The record of room that is not in use, whose bytes are zero.
    fn unused() -> Self
        ensures { result ≡ blank };

    // Puts the record, and answers the offset behind it.
    fn put(self, out: &mut [u8], at: usize) -> usize
        requires { at + SIZE ≤ length out.old }
        ensures { Puts SIZE out.old at (bytes_of self) out.new result };

    // The record that the bytes are read as, where they pass.
    fn read(bytes: &[u8], at: usize) -> Option<Self>
        requires { at + SIZE ≤ length bytes.now }
        ensures { result
            ≡ then_some (clear bytes.now at && within bytes.now at) (read_as bytes.now at) };
}

// A cell that says what any bytes are read as, those that do not pass too.
pub trait ReadAny: Cell {
    // The record that the bytes are read as: an `Err` where they do not pass.
    fn read_any(bytes: &[u8], at: usize) -> Result<Self, Self>
        requires { at + Self.SIZE ≤ length bytes.now }
        ensures { result
            ≡ cond (Self.clear bytes.now at && Self.within bytes.now at) (Ok (Self.read_as bytes.now at)) (Err (Self.read_as bytes.now at)) };
}

// What an image has of a set beside its entries, slots and timers.
#[derive(Clone, Copy)]
pub struct Header {
    pub closed: bool,
    pub first: Option<Place>,
    pub len: usize,
    pub made: usize,
    pub free: Slot,
}

impl Header {
    // How many bytes it takes.
    pub const SIZE: usize = 9;

    // Puts the header, and answers the offset behind it.
    pub fn put(self, out: &mut [u8], at: usize) -> usize
        requires { at + 9 ≤ length out.old }
        ensures { PutsHeader self out.old at out.new result }
    {
        let head = parts::number_parts(self.first.map(|place| place.0));
        let marks = u64::from(self.closed) * 2 + head.tag;
        let at = digits::put(out, at, 1, columns::FORMAT);
        let at = digits::put(out, at, 1, marks);
        let at = digits::put(out, at, 1, u64::from(head.number));
        let at = digits::put(out, at, 2, self.len as u64);
        let at = digits::put(out, at, 2, self.made as u64);
        digits::put(out, at, 2, u64::from(self.free.0))
    }

    // The header that the bytes are read as: an `Err` where they do not pass.
    pub fn read(bytes: &[u8], at: usize) -> Result<Header, Header>
        requires { at + 9 ≤ length bytes.now }
        ensures { FindsHeader bytes.now at result }
    {
        let format = digits::number(bytes, at, 1);
        let marks = digits::number(bytes, at + 1, 1);
        let place = digits::number(bytes, at + 2, 1);
        let len = digits::number(bytes, at + 3, 2);
        let made = digits::number(bytes, at + 5, 2);
        let free = digits::number(bytes, at + 7, 2);
        let spare = columns::header_spare(marks, place, len, made, free);
        let ranges = columns::header_range(format, place, len, made, free);
        let header = Header {
            closed: marks / 2 % 2 == 1,
            first: parts::number_from(marks % 2, place as u16).map(Place),
            len: len as usize,
            made: made as usize,
            free: Slot(free as u16),
        };
        if spare && ranges {
            Ok(header)
        } else {
            Err(header)
        }
    }
}

// An entry: its deadline, its generation, its place and its slot.
impl Cell for Entry {
    ghost SIZE = { 14 };

    const SIZE: usize = 14;

    ghost bytes_of = { entry_bytes };

    ghost clear = { entry_clear };

    ghost within = { entry_in };

    ghost read_as = { entry_of };

    ghost blank = { no_entry };

    fn unused() -> Entry {
        Entry {
            at: 0,
            generation: 0,
            place: Place(0),
            slot: Slot(0),
        }
    }

    fn put(self, out: &mut [u8], at: usize) -> usize
        requires { at + 14 ≤ length out.old }
        ensures { PutsEntry self out.old at out.new result }
    {
        let at = digits::put(out, at, 8, self.at);
        let at = digits::put(out, at, 4, u64::from(self.generation));
        let at = digits::put(out, at, 1, u64::from(self.place.0));
        digits::put(out, at, 1, u64::from(self.slot.0))
    }

    fn read(bytes: &[u8], at: usize) -> Option<Entry>
        requires { at + 14 ≤ length bytes.now }
        ensures { FindsEntry bytes.now at result }
    {
        Entry::read_any(bytes, at).ok()
    }
}

impl ReadAny for Entry {
    fn read_any(bytes: &[u8], at: usize) -> Result<Entry, Entry>
        requires { at + 14 ≤ length bytes.now }
        ensures { FindsAnyEntry bytes.now at result }
    {
        let deadline = digits::number(bytes, at, 8);
        let generation = digits::number(bytes, at + 8, 4);
        let place = digits::number(bytes, at + 12, 1);
        let slot = digits::number(bytes, at + 13, 1);
        let spare = columns::entry_spare(generation);
        let ranges = columns::entry_range(place, slot);
        let entry = Entry {
            at: deadline,
            generation: generation as u32,
            place: Place(place as u16),
            slot: Slot(slot as u16),
        };
        if spare && ranges {
            Ok(entry)
        } else {
            Err(entry)
        }
    }
}

// A slot: one number, whose highest bit is set where it is full.
impl Cell for SlabSlot {
    ghost SIZE = { 2 };

    const SIZE: usize = 2;

    ghost bytes_of = { slot_bytes };

    ghost clear = { slot_clear };

    ghost within = { slot_in };

    ghost read_as = { slot_of };

    ghost blank = { zero_slot };

    fn unused() -> SlabSlot {
        SlabSlot {
            state: SlotState::Empty(Slot(0)),
        }
    }

    fn put(self, out: &mut [u8], at: usize) -> usize
        requires { at + 2 ≤ length out.old }
        ensures { PutsSlot self out.old at out.new result }
    {
        digits::put(out, at, 2, parts::slot_number(self.state))
    }

    fn read(bytes: &[u8], at: usize) -> Option<SlabSlot>
        requires { at + 2 ≤ length bytes.now }
        ensures { FindsSlot bytes.now at result }
    {
        SlabSlot::read_any(bytes, at).ok()
    }
}

impl ReadAny for SlabSlot {
    fn read_any(bytes: &[u8], at: usize) -> Result<SlabSlot, SlabSlot>
        requires { at + 2 ≤ length bytes.now }
        ensures { FindsAnySlot bytes.now at result }
    {
        let n = digits::number(bytes, at, 2);
        let spare = columns::slot_spare(n);
        let ranges = columns::slot_range(n);
        let slot = SlabSlot {
            state: parts::state_from(n / 32768, (n % 512) as u16),
        };
        if spare && ranges { Ok(slot) } else { Err(slot) }
    }
}

// A timer: its tags in one byte, the place that it waits before, the slot that it names, its use number, its word and its deadline.
impl Cell for Timer {
    ghost SIZE = { 19 };

    const SIZE: usize = 19;

    ghost bytes_of = { timer_bytes };

    ghost clear = { timer_clear };

    ghost within = { timer_in };

    ghost read_as = { timer_of };

    ghost blank = { no_timer };

    fn unused() -> Timer {
        Timer {
            life: Life::Free,
            waiting: Waiting::No,
            held: None,
            uses: 0,
        }
    }

    fn put(self, out: &mut [u8], at: usize) -> usize
        requires { at + 19 ≤ length out.old }
        ensures { PutsTimer self out.old at out.new result }
    {
        let life = parts::life_parts(self.life);
        let waiting = parts::waiting_parts(self.waiting);
        let held = parts::number_parts(self.held.map(|slot| slot.0));
        let tags = life.tag * 64 + waiting.tag * 4 + held.tag * 2;
        let at = digits::put(out, at, 1, tags);
        let at = digits::put(out, at, 1, u64::from(waiting.number));
        let at = digits::put(out, at, 1, u64::from(held.number));
        let at = digits::put(out, at, 4, u64::from(self.uses));
        let at = digits::put(out, at, 4, u64::from(life.word));
        digits::put(out, at, 8, life.due)
    }

    fn read(bytes: &[u8], at: usize) -> Option<Timer>
        requires { at + 19 ≤ length bytes.now }
        ensures { FindsTimer bytes.now at result }
    {
        Timer::read_any(bytes, at).ok()
    }
}

impl ReadAny for Timer {
    fn read_any(bytes: &[u8], at: usize) -> Result<Timer, Timer>
        requires { at + 19 ≤ length bytes.now }
        ensures { FindsAnyTimer bytes.now at result }
    {
        let tags = digits::number(bytes, at, 1);
        let next = digits::number(bytes, at + 1, 1);
        let slot = digits::number(bytes, at + 2, 1);
        let uses = digits::number(bytes, at + 3, 4);
        let word = digits::number(bytes, at + 7, 4);
        let due = digits::number(bytes, at + 11, 8);
        let spare = columns::timer_spare(tags, next, slot, word, due);
        let ranges = columns::timer_range(tags, next, slot);
        let timer = Timer {
            life: parts::life_from(tags / 64, word as u32, due),
            waiting: parts::waiting_from(tags / 4 % 4, next as u16),
            held: parts::number_from(tags / 2 % 2, slot as u16).map(Slot),
            uses: uses as u32,
        };
        if spare && ranges {
            Ok(timer)
        } else {
            Err(timer)
        }
    }
}
