// The 32-bit state word of a timer: the generation in the upper 30 bits, then the invalid bit, then the fired bit. Masks and
// shifts pick it apart and set the bits; the contracts say what that comes to in plain arithmetic, for every word.
#![tactic(auto)]

ghost use Rattle.word.specs.Promises.{Generation, IsFired, IsInvalid, Fires, Invalidates, Resets, Matches, Polls};

// The fired bit.
const FIRED: u32 = 1;
// The invalid bit.
const INVALID: u32 = 2;
// One generation.
const STEP: u32 = 4;
// Every bit of the generation, and neither mark.
const UNMARKED: u32 = 0xffff_fffc;

// What a poll finds.
#[derive(Clone, Copy, PartialEq, Eq)]
pub enum Polled {
    Pending,
    Fired,
    Gone,
}

// The generation: how often the timer was reset, modulo 2^30.
pub fn generation(word: u32) -> u32
    ensures { Generation word result }
{
    word >> 2
}

// Whether the timer has fired.
pub fn fired(word: u32) -> bool
    ensures { IsFired word result }
{
    word & FIRED != 0
}

// Whether the timer was given up by a close.
pub fn invalid(word: u32) -> bool
    ensures { IsInvalid word result }
{
    word & INVALID != 0
}

// The word with the fired bit set.
pub fn with_fired(word: u32) -> u32
    ensures { Fires word result }
{
    word | FIRED
}

// The word with the invalid bit set.
pub fn with_invalid(word: u32) -> u32
    ensures { Invalidates word result }
{
    word | INVALID
}

// The word after a reset: one generation on, from the last one to 0, with both marks cleared.
pub fn after_reset(word: u32) -> u32
    ensures { Resets word result }
{
    word.wrapping_add(STEP) & UNMARKED
}

// Whether the whole word is the generation with neither mark. Any number may be asked for: one of 2^30 or more is no word's.
pub fn matches(word: u32, generation: u32) -> bool
    ensures { Matches word generation result }
{
    word >> 2 == generation && word & (FIRED | INVALID) == 0
}

// What a poll finds: fired goes before gone.
pub fn poll(word: u32) -> Polled
    ensures { Polls word result }
{
    if fired(word) {
        Polled::Fired
    } else if invalid(word) {
        Polled::Gone
    } else {
        Polled::Pending
    }
}
