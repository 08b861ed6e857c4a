// What C calls: each function of the library `host` that include/nurberosh.h declares, exported under its name. A library that other crates
// lean on exports nothing itself. Each promises what the library's function does.
#![tactic(auto)]

ghost use Rattle.host.specs.Promises.{Freshens, Adds, Resets, Cancels, Turns, Wakes};

// Makes the image that of a fresh set.
#[unsafe(no_mangle)]
pub extern "C" fn nurberosh_fresh(image: &mut [u8]) -> u64
    ensures { Freshens image.old image.new result }
{
    host::nurberosh_fresh(image)
}

// Adds a timer, and hands its handle back.
#[unsafe(no_mangle)]
pub extern "C" fn nurberosh_add(image: &mut [u8], deadline: u64, handle: &mut u64) -> u64
    ensures { Adds image.old deadline handle.old image.new handle.new result }
{
    host::nurberosh_add(image, deadline, handle)
}

// Sets a live timer to another deadline.
#[unsafe(no_mangle)]
pub extern "C" fn nurberosh_reset(image: &mut [u8], handle: u64, deadline: u64) -> u64
    ensures { Resets image.old handle deadline image.new result }
{
    host::nurberosh_reset(image, handle, deadline)
}

// Cancels a live timer.
#[unsafe(no_mangle)]
pub extern "C" fn nurberosh_cancel(image: &mut [u8], handle: u64) -> u64
    ensures { Cancels image.old handle image.new result }
{
    host::nurberosh_cancel(image, handle)
}

// Reports the timers that are owed and due: the words of their handles from the start of the report bytes on, and how many.
#[unsafe(no_mangle)]
pub extern "C" fn nurberosh_turn(
    image: &mut [u8],
    reading: u64,
    reports: &mut [u8],
    reported: &mut u64,
) -> u64
    ensures { Turns image.old reading reports.old reported.old image.new reports.new reported.new result }
{
    host::nurberosh_turn(image, reading, reports, reported)
}

// When the next turn is wanted: 1 and the time, or 0 where no timer has an entry in the heap.
#[unsafe(no_mangle)]
pub extern "C" fn nurberosh_next_wake(image: &[u8], any: &mut u64, wake: &mut u64) -> u64
    ensures { Wakes image.now any.old wake.old any.new wake.new result }
{
    host::nurberosh_next_wake(image, any, wake)
}
