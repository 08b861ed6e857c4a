// The text of a line, written into lent bytes: each function puts one part behind what is written so far, and leaves the other bytes
// as they were.
ghost use Rattle.std.specs.Prelude.{◌+◌, ◌*◌, ◌≤◌, ◌<◌, length};
ghost use Rattle.heap.specs.Capacity.{cap};
ghost use Rattle.records.specs.Lines.{decimal, number_room, handle_room, report_room, answer_room, room};
ghost use Rattle.records.specs.Puts.{HasRoom, PutsLine, PutsAnswer, PutsValues, PutsReport, PutsHandles, PutsHandle, PutsWake, PutsRefusal, PutsNumber, PutsDigits, PutsTwo, PutsOne, Polls};

use crate::{Line, Made};
use refusals::Refusal;
use state::Handle;
use timers::Reply;
use word::Polled;

// The lent bytes, and how many of them are written.
#[derive(Drop)]
pub struct Pen<'a> {
    pub out: &'a mut [u8],
    pub at: usize,
}

impl Pen<'_> {
    // Puts a whole line.
    pub fn line(&mut self, line: Line, list: &[u64])
        requires list_len_bound { length list.now ≤ cap }
        requires room_in_bounds { HasRoom room self.old }
        ensures { PutsLine line list.now self.old self.new }
    {
        match line {
            Ok(
                Made {
                    operation,
                    reply,
                    wake,
                },
            ) => {
                self.digits(operation as u64);
                self.answer(reply, wake, list);
            }
            Err(why) => {
                self.byte(b'?');
                self.refusal(why);
            }
        }
        self.byte(b'\n')
    }

    // Puts what a call answered: 0 and the values, or the refusal.
    fn answer(&mut self, reply: Result<Reply, Refusal>, wake: Option<u64>, list: &[u64])
        requires list_len_bound { length list.now ≤ cap }
        requires answer_room_in_bounds { HasRoom answer_room self.old }
        ensures { PutsAnswer reply wake list.now self.old self.new }
    {
        match reply {
            Ok(values) => {
                self.two(b' ', b'0');
                self.values(values, wake, list)
            }
            Err(why) => self.refusal(why),
        }
    }

    // Puts the values of an accepted call.
    fn values(&mut self, values: Reply, wake: Option<u64>, list: &[u64])
        requires list_len_bound { length list.now ≤ cap }
        requires report_room_in_bounds { HasRoom (report_room cap) self.old }
        ensures { PutsValues values wake list.now self.old self.new }
    {
        match values {
            Reply::Added(handle) => {
                self.number(handle.place.0 as u64);
                self.number(handle.uses as u64)
            }
            Reply::Done => {}
            Reply::Ran { reported, .. } => self.report(&list[..reported.min(list.len())], wake),
            Reply::Wake(next) => self.wake(next),
            Reply::Found(p) => self.number(polled(p)),
            Reply::Ticked(t) => self.number(t),
        }
    }

    // Puts what an advance or a turn reported: how many words, whom they name, and the next wake.
    fn report(&mut self, words: &[u64], wake: Option<u64>)
        requires { HasRoom (report_room (length words.now)) self.old }
        ensures { PutsReport words.now wake self.old self.new }
    {
        self.number(words.len() as u64);
        self.handles(words);
        self.two(b' ', b'w');
        self.wake(wake)
    }

    // Puts a blank and a next wake.
    fn wake(&mut self, wake: Option<u64>)
        requires { HasRoom number_room self.old }
        ensures { PutsWake wake self.old self.new }
    {
        match wake {
            Some(t) => self.number(t),
            None => self.two(b' ', b'-'),
        }
    }

    // Puts whom words name, each behind a blank.
    fn handles(&mut self, words: &[u64])
        requires { HasRoom (length words.now * handle_room) self.old }
        ensures { PutsHandles words.now self.old self.new }
    {
        for word in words {
            self.handle(*word);
        }
    }

    // Puts a blank and the handle that a word names, or a question mark where it names none.
    fn handle(&mut self, word: u64)
        requires { HasRoom handle_room self.old }
        ensures { PutsHandle word self.old self.new }
    {
        match state::handle_of(word) {
            None => self.two(b' ', b'?'),
            Some(Handle { place, uses }) => {
                self.number(place.0 as u64);
                self.byte(b':');
                self.digits(uses as u64)
            }
        }
    }

    // Puts a blank and the number of a refusal.
    fn refusal(&mut self, why: Refusal)
        requires { HasRoom number_room self.old }
        ensures { PutsRefusal why self.old self.new }
    {
        self.number(refusals::number(why) as u64)
    }

    // Puts a blank and a number.
    fn number(&mut self, n: u64)
        requires { HasRoom number_room self.old }
        ensures { PutsNumber n self.old self.new }
    {
        self.byte(b' ');
        self.digits(n)
    }

    // Puts a number in decimal, where there is room for its digits.
    fn digits(&mut self, n: u64)
        requires { HasRoom (length (decimal n)) self.old }
        ensures { PutsDigits n self.old self.new }
    {
        if n < 10 {
            return self.byte(b'0' + n as u8);
        }
        self.digits(n / 10);
        self.byte(b'0' + (n % 10) as u8)
    }

    // Puts two bytes.
    fn two(&mut self, a: u8, b: u8)
        requires { HasRoom 2 self.old }
        ensures { PutsTwo a b self.old self.new }
    {
        self.byte(a);
        self.byte(b)
    }

    // Puts one byte.
    fn byte(&mut self, b: u8)
        requires { HasRoom 1 self.old }
        ensures { PutsOne b self.old self.new }
    {
        self.out[self.at] = b;
        self.at += 1;
    }
}

// The number of what a poll finds.
fn polled(p: Polled) -> u64
    ensures { Polls p result }
{
    match p {
        Polled::Pending => 0,
        Polled::Fired => 1,
        Polled::Gone => 2,
    }
}
