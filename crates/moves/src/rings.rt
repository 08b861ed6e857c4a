// The advance: entries are popped while they are due, and the timers that they ring are reported.
ghost use Rattle.std.specs.Prelude.{◌≡◌, ◌≤◌, length};
ghost use Rattle.heap.specs.Capacity.{cap};
ghost use Rattle.heap.specs.Sound.{Sound};
ghost use Rattle.moves.specs.Rules.{due_by, rung_life, reports, rung_timer};
ghost use Rattle.moves.specs.Promises.{Rings};

use heap::{Entry, Heap};
use state::{Handle, Life, Set, Timer};

// A set after an advance: how many timers were reported, and how many entries popped.
#[derive(Clone, Copy)]
pub struct Ran {
    pub set: Set,
    pub reported: usize,
    pub popped: usize,
}

// Pops while the head is due. The reports fill the list from its start.
#[inline(never)]
pub fn advanced(s: Set, reading: u64, list: &mut [u64]) -> Ran
    requires sound { Sound s.heap }
    requires cap_in_bounds { cap ≤ length list.old }
    ensures { Rings s reading list.old result list.new }
{
    let mut h = s.heap;
    let mut ts = s.timers;
    let mut reported: usize = 0;
    let mut popped: usize = 0;
    for _ in 0..s.heap.len {
        if !due(h, reading) {
            break;
        }
        let e = h.entries[0];
        h = heap::pop_sound(h).state;
        let p = e.place.0 as usize;
        if p < heap::CAP {
            let t = ts[p];
            if rings(t.life, e.generation) {
                list[reported] = state::handle_word(Handle {
                    place: e.place,
                    uses: t.uses,
                });
                reported += 1;
            }
            ts[p] = rung(t, e.generation);
        }
        popped += 1;
    }
    Ran {
        set: Set {
            heap: h,
            timers: ts,
            ..s
        },
        reported,
        popped,
    }
}

// Whether the head's deadline is at or before the reading.
fn due(h: Heap, reading: u64) -> bool
    ensures { result ≡ due_by h reading }
{
    h.len != 0 && h.entries[0].at <= reading
}

// Whether a popped entry's timer is reported: it is live, and its whole word is the generation with neither mark.
fn rings(life: Life, generation: u32) -> bool
    ensures { result ≡ reports generation life }
{
    matches!(life, Life::Live { word, .. } if word::matches(word, generation))
}

// A popped entry's timer: it forgets its slot, and has fired where its whole word matches.
fn rung(t: Timer, generation: u32) -> Timer
    ensures { result ≡ rung_timer generation t }
{
    Timer {
        life: rung_life(t.life, generation),
        held: None,
        ..t
    }
}

// A life after a pop of that generation: the fired bit is set where the word matches.
fn rung_life(life: Life, generation: u32) -> Life
    ensures { result ≡ rung_life generation life }
{
    match life {
        Life::Live { word, due } if word::matches(word, generation) => Life::Live {
            word: word::with_fired(word),
            due,
        },
        Life::Cancelled { word } if word::matches(word, generation) => Life::Cancelled {
            word: word::with_fired(word),
        },
        _ => life,
    }
}
