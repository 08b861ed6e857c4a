// The tables of docs/IMAGE.md as tests of the numbers that stand in bytes: of each record one test for the column 'Spare' and one
// for the column 'Range'.
ghost use Rattle.std.specs.Prelude.{◌≡◌};
ghost use Rattle.cells.specs.Fine.{header_spare, header_range, entry_spare, entry_range, slot_spare, slot_range, timer_spare, timer_range};

// The number of the format, an image's first byte.
pub const FORMAT: u64 = 1;

// A place, a position or a slot is below this, and a count at most this.
const CAP: u64 = heap::CAP as u64;

// Whether a header's spare bits are clear: of the marks all but two, of the place all where there is no head, of each count the
// first 7.
pub fn header_spare(marks: u64, place: u64, len: u64, made: u64, free: u64) -> bool
    ensures { result ≡ header_spare marks place len made free }
{
    marks / 4 == 0
        && (marks % 2 == 1 || place == 0)
        && len / 512 == 0
        && made / 512 == 0
        && free / 512 == 0
}

// Whether a header's fields are in range: the format, the place of the head, and each count in its 9 bits.
pub fn header_range(format: u64, place: u64, len: u64, made: u64, free: u64) -> bool
    ensures { result ≡ header_range format place len made free }
{
    format == FORMAT && place < CAP && len % 512 <= CAP && made % 512 <= CAP && free % 512 <= CAP
}

// Whether an entry's spare bits are clear: the first 2 of the generation.
pub fn entry_spare(generation: u64) -> bool
    ensures { result ≡ entry_spare generation }
{
    generation >> 30 == 0
}

// Whether an entry's place and slot are in range.
pub fn entry_range(place: u64, slot: u64) -> bool
    ensures { result ≡ entry_range place slot }
{
    place < CAP && slot < CAP
}

// Whether a slot's spare bits are clear: those between the mark and the number.
pub fn slot_spare(n: u64) -> bool
    ensures { result ≡ slot_spare n }
{
    n / 512 % 64 == 0
}

// Whether a slot's number is in range: of a full slot it is a position.
pub fn slot_range(n: u64) -> bool
    ensures { result ≡ slot_range n }
{
    n % 512 <= CAP && (n / 32768 == 0 || n % 512 < CAP)
}

// Whether a timer's spare bits are clear: three of the tags, and those of each number that its case has no use for.
pub fn timer_spare(tags: u64, next: u64, slot: u64, word: u64, due: u64) -> bool
    ensures { result ≡ timer_spare tags next slot word due }
{
    tags / 16 % 4 == 0
        && tags % 2 == 0
        && (tags / 4 % 4 == 2 || next == 0)
        && (tags / 2 % 2 == 1 || slot == 0)
        && (tags / 64 == 1 || tags / 64 == 2 || word == 0)
        && (tags / 64 == 1 || due == 0)
}

// Whether a timer's fields are in range: whether it waits, the place that it waits before, and the slot that it names.
pub fn timer_range(tags: u64, next: u64, slot: u64) -> bool
    ensures { result ≡ timer_range tags next slot }
{
    tags / 4 % 4 < 3 && next < CAP && slot < CAP
}
