// The arrays of a set as bytes, record behind record: the entries and the slots of the heap, and the timers. Room that is not in
// use is zero, and is tested for that alone. Each array is looked at once, to test it and to read it.
ghost use Rattle.std.specs.Prelude.{cond, ◌≡◌, ◌+◌, ◌*◌, ◌≤◌, length};
ghost use Rattle.image.specs.Promises.{PutsRows, FindsRow, FindsRows};

use cells::{Cell, ReadAny};

// Puts the records of an array, of which the first few are in use, and answers the offset behind them.
pub fn put_rows<T: Cell>(out: &mut [u8], at: usize, all: &[T], used: usize) -> usize
    requires { at + length all.now * T.SIZE ≤ length out.old }
    ensures { PutsRows T.bytes_of T.blank T.SIZE all.now used out.old at out.new result }
{
    let mut next = at;
    for (i, row) in all.iter().enumerate() {
        let row = if i < used { *row } else { T::unused() };
        next = row.put(out, next);
    }
    next
}

// The record that the bytes are read as where it is in use; where it is not, they must be zero.
fn read_row<T: ReadAny>(bytes: &[u8], at: usize, used: bool) -> Option<T>
    requires { at + T.SIZE ≤ length bytes.now }
    ensures { FindsRow T.clear T.within T.read_as T.blank T.SIZE used bytes.now at result }
{
    if used {
        T::read_any(bytes, at).ok()
    } else {
        digits::zeros(bytes, at, T::SIZE).then_some(T::unused())
    }
}

// Reads the records of an array, of which the first few are in use, where the bytes of each pass.
pub fn read_rows<T: ReadAny>(bytes: &[u8], at: usize, all: &mut [T], used: usize) -> Option<()>
    requires { at + length all.old * T.SIZE ≤ length bytes.now }
    ensures { FindsRows T.clear T.within T.read_as T.blank T.SIZE (length all.old) used bytes.now at all.new result }
{
    for (i, row) in all.iter_mut().enumerate() {
        *row = read_row(bytes, at + i * T::SIZE, i < used)?;
    }
    Some(())
}
