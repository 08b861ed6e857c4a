// Numbers in lent bytes, most significant byte first. What an image of a set is made of is read and written here, a field at a
// time; which fields there are is the affair of `cells`.
//
// `number` reads a field, `put` writes one and leaves every other byte alone, and `zeros` tests room that is not in use.
#![tactic(auto)]

ghost use Rattle.std.specs.Prelude.{◌+◌, ◌≤◌, length};
ghost use Rattle.digits.specs.Promises.{Reads, PutsNumber, AreZeros};

// The number that stands in the k bytes from an offset on.
pub fn number(bytes: &[u8], at: usize, k: usize) -> u64
    requires k_bound { k ≤ 8 }
    requires k_in_bounds { at + k ≤ length bytes.now }
    ensures { Reads k bytes.now at result }
{
    let mut n: u64 = 0;
    for byte in &bytes[at..at + k] {
        n = n * 256 + u64::from(*byte);
    }
    n
}

// Writes the last k bytes of a number from an offset on, and answers the offset behind them.
pub fn put(out: &mut [u8], at: usize, k: usize, n: u64) -> usize
    requires { at + k ≤ length out.old }
    ensures { PutsNumber k n out.old at out.new result }
{
    let mut m = n;
    for i in (0..k).rev() {
        out[at + i] = (m % 256) as u8;
        m /= 256;
    }
    at + k
}

// Whether the k bytes from an offset on are all zero.
pub fn zeros(bytes: &[u8], at: usize, k: usize) -> bool
    requires { at + k ≤ length bytes.now }
    ensures { AreZeros k bytes.now at result }
{
    bytes[at..at + k].iter().all(|byte| *byte == 0)
}
