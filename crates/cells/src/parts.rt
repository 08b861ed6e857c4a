// The enums of a set as numbers, and back: which case it is, and what the case holds. What a case does not hold is 0.
ghost use Rattle.std.specs.Prelude.{◌≡◌};
ghost use Rattle.cells.specs.Parts.{slot_number, state_from, life_parts, life_from, waiting_parts, waiting_from, number_parts, number_from};

use heap::{Place, Pos, Slot, SlotState};
use state::{Life, Waiting};

// Whose place it is, with its word and its deadline.
#[derive(Clone, Copy)]
pub struct LifeParts {
    pub tag: u64,
    pub word: u32,
    pub due: u64,
}

// A case that holds one number at most.
#[derive(Clone, Copy)]
pub struct Part {
    pub tag: u64,
    pub number: u16,
}

// Whether a slot is full and what it names, as one number.
pub fn slot_number(state: SlotState) -> u64
    ensures { result ≡ slot_number state }
{
    match state {
        SlotState::Full(pos) => 32768 + u64::from(pos.0),
        SlotState::Empty(next) => u64::from(next.0),
    }
}

// Whether a slot is full and what it names, from the numbers.
pub fn state_from(tag: u64, number: u16) -> SlotState
    ensures { result ≡ state_from tag number }
{
    match tag {
        0 => SlotState::Empty(Slot(number)),
        _ => SlotState::Full(Pos(number)),
    }
}

// Whose place it is, as numbers.
pub fn life_parts(life: Life) -> LifeParts
    ensures { result ≡ life_parts life }
{
    match life {
        Life::Free => LifeParts {
            tag: 0,
            word: 0,
            due: 0,
        },
        Life::Live { word, due } => LifeParts { tag: 1, word, due },
        Life::Cancelled { word } => LifeParts {
            tag: 2,
            word,
            due: 0,
        },
        Life::Retired => LifeParts {
            tag: 3,
            word: 0,
            due: 0,
        },
    }
}

// Whose place it is, from the numbers.
pub fn life_from(tag: u64, word: u32, due: u64) -> Life
    ensures { result ≡ life_from tag word due }
{
    match tag {
        0 => Life::Free,
        1 => Life::Live { word, due },
        2 => Life::Cancelled { word },
        _ => Life::Retired,
    }
}

// Whether a timer waits and before whom, as numbers.
pub fn waiting_parts(waiting: Waiting) -> Part
    ensures { result ≡ waiting_parts waiting }
{
    match waiting {
        Waiting::No => Part { tag: 0, number: 0 },
        Waiting::Last => Part { tag: 1, number: 0 },
        Waiting::Before(place) => Part {
            tag: 2,
            number: place.0,
        },
    }
}

// Whether a timer waits and before whom, from the numbers.
pub fn waiting_from(tag: u64, place: u16) -> Waiting
    ensures { result ≡ waiting_from tag place }
{
    match tag {
        1 => Waiting::Last,
        2 => Waiting::Before(Place(place)),
        _ => Waiting::No,
    }
}

// A number that may be there, as numbers.
pub fn number_parts(number: Option<u16>) -> Part
    ensures { result ≡ number_parts number }
{
    match number {
        None => Part { tag: 0, number: 0 },
        Some(number) => Part { tag: 1, number },
    }
}

// A number that may be there, from the numbers.
pub fn number_from(tag: u64, number: u16) -> Option<u16>
    ensures { result ≡ number_from tag number }
{
    (tag == 1).then_some(number)
}
