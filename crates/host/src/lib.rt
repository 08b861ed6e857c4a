// The calls of a C host: each is a call of `timers` on the set whose image the host lends, between reading the image and writing it
// back. include/nurberosh.h declares them, and the crate `host_c` exports them; a slice is a pointer and a count there, and a lent number
// a pointer.
//
// The answer is a status: 0 where the call is accepted, and else why it is refused. A refused call writes nothing.
#![tactic(auto)]

ghost use Rattle.std.specs.Prelude.{◌≡◌, ◌*◌, ◌≤◌, length};
ghost use Rattle.host.specs.Numbers.{handle_from};
ghost use Rattle.host.specs.Promises.{Freshens, Adds, Resets, Cancels, Turns, Wakes, Added, Hands, Reset, Cancelled, Turned, Counts, Woken, Ends, Tells, Puts};

use refusals::Refusal;
use refusals::outcome::Outcome;
use state::{Handle, Set};
use timers::Reply;

// Makes the image that of a fresh set.
#[unsafe(no_mangle)]
pub extern "C" fn nurberosh_fresh(image: &mut [u8]) -> u64
    ensures { Freshens image.old image.new result }
{
    status(image::write(state::fresh(), image))
}

// Adds a timer, and hands its handle back.
#[unsafe(no_mangle)]
pub extern "C" fn nurberosh_add(image: &mut [u8], deadline: u64, handle: &mut u64) -> u64
    ensures { Adds image.old deadline handle.old image.new handle.new result }
{
    status(add(image, deadline, handle))
}

// Sets a live timer to another deadline.
#[unsafe(no_mangle)]
pub extern "C" fn nurberosh_reset(image: &mut [u8], handle: u64, deadline: u64) -> u64
    ensures { Resets image.old handle deadline image.new result }
{
    status(reset(image, handle, deadline))
}

// Cancels a live timer.
#[unsafe(no_mangle)]
pub extern "C" fn nurberosh_cancel(image: &mut [u8], handle: u64) -> u64
    ensures { Cancels image.old handle image.new result }
{
    status(cancel(image, handle))
}

// Reports the timers that are owed and due: the words of their handles from the start of the report bytes on, and how many.
#[unsafe(no_mangle)]
pub extern "C" fn nurberosh_turn(
    image: &mut [u8],
    reading: u64,
    reports: &mut [u8],
    reported: &mut u64,
) -> u64
    ensures { Turns image.old reading reports.old reported.old image.new reports.new reported.new result }
{
    status(turn(image, reading, reports, reported))
}

// When the next turn is wanted: 1 and the time, or 0 where no timer has an entry in the heap.
#[unsafe(no_mangle)]
pub extern "C" fn nurberosh_next_wake(image: &[u8], any: &mut u64, wake: &mut u64) -> u64
    ensures { Wakes image.now any.old wake.old any.new wake.new result }
{
    let answer = next_wake(image);
    if let Ok(Reply::Wake(next)) = answer {
        *any = u64::from(next.is_some());
        if let Some(time) = next {
            *wake = time;
        }
    }
    status(answer)
}

// An add to the set of an image. The word of the new handle is put before the image is written.
fn add(image: &mut [u8], deadline: u64, handle: &mut u64) -> Result<Reply, Refusal>
    ensures image { Added image.old deadline image.new result }
    ensures handle { Hands handle.old handle.new result }
{
    let found = image::read(image);
    found.answer?;
    let a = timers::add(found.state, deadline);
    let Ok(Reply::Added(new)) = a.answer else {
        return ended(a, image);
    };
    *handle = state::handle_word(new);
    ended(a, image)
}

// A reset in the set of an image, by the handle in a word.
fn reset(image: &mut [u8], handle: u64, deadline: u64) -> Result<Reply, Refusal>
    ensures { Reset image.old handle deadline image.new result }
{
    let found = image::read(image);
    found.answer?;
    ended(
        timers::reset(found.state, handle_from(handle), deadline),
        image,
    )
}

// A cancel in the set of an image, by the handle in a word.
fn cancel(image: &mut [u8], handle: u64) -> Result<Reply, Refusal>
    ensures { Cancelled image.old handle image.new result }
{
    let found = image::read(image);
    found.answer?;
    ended(timers::cancel(found.state, handle_from(handle)), image)
}

// A turn of the set of an image. What it reports is put before the image is written.
fn turn(
    image: &mut [u8],
    reading: u64,
    reports: &mut [u8],
    reported: &mut u64,
) -> Result<Reply, Refusal>
    ensures board { Turned image.old reading reports.old image.new reports.new result }
    ensures reported { Counts reported.old reported.new result }
{
    let found = image::read(image);
    found.answer?;
    let room = (reports.len() / 8).min(heap::CAP);
    let mut words = [0u64; heap::CAP];
    let list = &mut words[..room];
    let a = timers::turn(found.state, reading, list);
    let Ok(Reply::Ran { reported: n, .. }) = a.answer else {
        return ended(a, image);
    };
    put_words(reports, &list[..n]);
    *reported = n as u64;
    ended(a, image)
}

// The next wake of the set of an image.
fn next_wake(image: &[u8]) -> Result<Reply, Refusal>
    ensures { Woken image.now result }
{
    let found = image::read(image);
    found.answer?;
    timers::next_wake(found.state).answer
}

// Ends a call: where it is accepted its set is written over the image.
fn ended(a: Outcome<Set, Reply>, image: &mut [u8]) -> Result<Reply, Refusal>
    ensures { Ends a image.old image.new result }
{
    let reply = a.answer?;
    image::write(a.state, image)?;
    Ok(reply)
}

// The status of an answer: 0 where it is accepted; else the number of the refusal, and with 1 the kind of the fault from bit 8 on and where
// it is from bit 16 on.
fn status<T: Copy>(answer: Result<T, Refusal>) -> u64
    ensures { Tells answer result }
{
    let Err(why) = answer else {
        return 0;
    };
    let number = refusals::number(why) as u64;
    let Refusal::Unsound(f) = why else {
        return number;
    };
    let kind = refusals::fault::kind(f) as u64;
    let at = refusals::fault::at(f) % 4_294_967_296;
    number + kind * 256 + at * 65_536
}

// The handle that a word names. A word in which a zero bit is set names nobody, and is taken for a handle whose place is out of range.
fn handle_from(word: u64) -> Handle
    ensures { result ≡ handle_from word }
{
    state::handle_of(word).unwrap_or(Handle {
        place: heap::Place(65_535),
        uses: 0,
    })
}

// Puts words as bytes, eight each, from the start on.
fn put_words(out: &mut [u8], words: &[u64])
    requires { length words.now * 8 ≤ length out.old }
    ensures { Puts words.now out.old out.new }
{
    let mut next = 0;
    for word in words {
        next = digits::put(out, next, 8, *word);
    }
}
