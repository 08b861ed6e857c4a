// Times put together: the one sum and the one difference, each an answer or why there is none.
ghost use Rattle.refusals.specs.Times.{Sums, Differs, Sizes};

use crate::Refusal;

// The sum of two times, refused where it is above 2^64-1.
pub fn sum(a: u64, b: u64) -> Result<u64, Refusal>
    ensures { Sums a b result }
{
    a.checked_add(b).ok_or(Refusal::TimeOverflow)
}

// The first time minus the second, refused where it is below -2^63 or above 2^63-1.
pub fn difference(a: u64, b: u64) -> Result<i64, Refusal>
    ensures { Differs a b result }
{
    i64::try_from(a as i128 - b as i128).map_err(|_| Refusal::TimeOverflow)
}

// How far a number of nanoseconds is from zero: what stands behind its sign.
pub fn size(n: i64) -> u64
    ensures { Sizes n result }
{
    n.unsigned_abs()
}
