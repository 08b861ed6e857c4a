// Records of 14 bytes, the calls that they make, and the lines that answer them: what a program that replays records does between
// reading and writing.
//
// `decode` reads a record, `answer` makes a call and says what its line is to tell, and `replay` is the two together; `write_line`
// writes the line.
#![tactic(auto)]

mod fields;
mod text;

ghost use Rattle.records.specs.Promises.{Decodes, Answers, Replays, Writes, Operates, WakesIn, WakesAfter};

use refusals::Refusal;
use refusals::outcome::Outcome;
use state::Set;
use text::Pen;
use timers::{Call, Reply};

// No line is longer: `room` of specs/Lines.antt.
pub const LINE: usize = 67 + heap::CAP * 22;

// What the line of a call tells: its operation, what it answered, and the next wake after an accepted advance or turn.
#[derive(Clone, Copy)]
pub struct Made {
    pub operation: u8,
    pub reply: Result<Reply, Refusal>,
    pub wake: Option<u64>,
}

// What the line of a record tells: its call, or why it makes none.
pub type Line = Result<Made, Refusal>;

// The set after a call, and what the call's line tells.
#[derive(Clone, Copy)]
pub struct Answered {
    pub set: Set,
    pub made: Made,
}

// The call that a record makes, or why it makes none.
pub fn decode(bytes: [u8; 14]) -> Result<Call, Refusal>
    ensures { Decodes bytes result }
{
    fields::call_of(fields::parted(bytes))
}

// Makes a call, and asks for the next wake after an accepted advance or turn.
pub fn answer(s: Set, call: Call, list: &mut [u64]) -> Answered
    ensures { Answers s call list.old result list.new }
{
    let a = timers::perform(s, call, list);
    let wake = wake_after(a.state, a.answer);
    Answered {
        set: a.state,
        made: Made {
            operation: operation(call),
            reply: a.answer,
            wake,
        },
    }
}

// Decodes a record and makes its call; a record that is refused changes nothing.
pub fn replay(s: Set, bytes: [u8; 14], list: &mut [u64]) -> Outcome<Set, Made>
    ensures { Replays s bytes list.old result list.new }
{
    let call = match decode(bytes) {
        Ok(call) => call,
        Err(why) => return Outcome::kept(s, why),
    };
    let a = answer(s, call, list);
    Outcome::given(a.set, a.made)
}

// Writes a line at the start of the lent bytes, and answers how long it is. The reports are read from the list that was lent to the
// call; a count above its length is taken as its length.
pub fn write_line(line: Line, list: &[u64; heap::CAP], out: &mut [u8; LINE]) -> usize
    ensures { Writes line list.now out.old result out.new }
{
    let mut pen = Pen { out, at: 0 };
    pen.line(line, list);
    pen.at
}

// The operation of a call; that of a tick or an interval reset is above those that a record can name.
fn operation(call: Call) -> u8
    ensures { Operates call result }
{
    match call {
        Call::Add { .. } => 0,
        Call::Reset { .. } => 1,
        Call::Cancel { .. } => 2,
        Call::Drain => 3,
        Call::Advance { .. } => 4,
        Call::Turn { .. } => 5,
        Call::NextWake => 6,
        Call::Poll { .. } => 7,
        Call::Close => 8,
        Call::Tick { .. } => 16,
        Call::Restart { .. } => 17,
    }
}

// The next wake after a call that answered this: asked where the call is an accepted advance or turn.
fn wake_after(s: Set, reply: Result<Reply, Refusal>) -> Option<u64>
    ensures { WakesAfter s reply result }
{
    match reply {
        Ok(Reply::Ran { .. }) => wake_in(timers::next_wake(s).answer),
        _ => None,
    }
}

// The wake that a reply names.
fn wake_in(reply: Result<Reply, Refusal>) -> Option<u64>
    ensures { WakesIn reply result }
{
    match reply {
        Ok(Reply::Wake(wake)) => wake,
        _ => None,
    }
}
