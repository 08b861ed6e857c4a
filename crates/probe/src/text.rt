// The text that goes to standard output. It is gathered in a buffer of fixed size, and written out when that is full and at the end.
// Each function puts something behind all that was put before. Where a write fails, nothing more is written, and the end tells why.
ghost use Rattle.std.specs.Prelude.{◌≤◌};

use itoa::Buffer;
use refusals::Refusal;
use std::io;
use std::io::{Stdout, Write};

// How many bytes are gathered before they are written.
pub const ROOM: usize = 65_536;

// Where the text goes: the bytes that are gathered, how many they are, what they are written to, and how the writes went so far.
#[derive(Drop)]
pub struct Output {
    gathered: [u8; ROOM],
    at: usize,
    to: Stdout,
    went: io::Result<()>,
    ghost within: { at ≤ 65536 },
}

impl Output {
    // A buffer with nothing in it.
    pub fn new(to: Stdout) -> Output {
        Output {
            gathered: [0; ROOM],
            at: 0,
            to,
            went: Ok(()),
        }
    }

    // Puts a byte. A full buffer is written out first.
    pub fn byte(&mut self, b: u8) {
        if self.at == ROOM {
            if self.went.is_ok() {
                self.went = self.to.write_all(&self.gathered);
            }
            self.at = 0;
        }
        self.gathered[self.at] = b;
        self.at += 1;
    }

    // Puts some bytes.
    pub fn bytes(&mut self, s: &[u8]) {
        for b in s {
            self.byte(*b);
        }
    }

    // Puts a number in decimal.
    pub fn number(&mut self, x: u64) {
        self.bytes(Buffer::new().format(x).as_bytes());
    }

    // Puts a signed number in decimal.
    pub fn signed(&mut self, x: i64) {
        self.bytes(Buffer::new().format(x).as_bytes());
    }

    // Puts a blank and a byte.
    pub fn mark(&mut self, b: u8) {
        self.bytes(&[b' ', b]);
    }

    // Puts a blank and a number.
    pub fn field(&mut self, x: u64) {
        self.byte(b' ');
        self.number(x);
    }

    // Puts a colon and a number.
    pub fn part(&mut self, x: u64) {
        self.byte(b':');
        self.number(x);
    }

    // Puts a blank and the number that says that a call was accepted.
    pub fn accepted(&mut self) {
        self.field(0);
    }

    // Puts a blank and the number of a refusal.
    pub fn refused(&mut self, why: Refusal) {
        self.field(refusals::number(why) as u64);
    }

    // Puts an exclamation mark and the number of a refusal.
    pub fn barred(&mut self, why: Refusal) {
        self.byte(b'!');
        self.number(refusals::number(why) as u64);
    }

    // Ends the line.
    pub fn end(&mut self) {
        self.byte(b'\n');
    }

    // The line of a record that asks for no call that there is.
    pub fn unknown(&mut self) {
        self.bytes(b"?\n");
    }

    // Writes out what is gathered, and tells how all writes went.
    pub fn flush(self) -> io::Result<()> {
        let Output {
            gathered,
            at,
            mut to,
            went,
        } = self;
        went?;
        to.write_all(&gathered[..at])
    }
}
