// Standard output and standard error by their numbers.
use std::fmt;
use std::fmt::{Display, Write};
use std::io::{Error, ErrorKind, Result};

const OUTPUT: i32 = 1;

const ERROR: i32 = 2;

// More than any line that the programs tell: a line is written by one call.
const ROOM: usize = 1024;

// Prints for who has no handle of the system. A call that a signal interrupts before it moves a byte is one that failed.
#[derive(Clone, Copy)]
pub struct Outputs;

impl Print for Outputs {
    fn print<D: Display + Drop>(&self, value: D) -> Result<()> {
        print_to(OUTPUT, value, "")
    }

    fn println<D: Display + Drop>(&self, value: D) -> Result<()> {
        print_to(OUTPUT, value, "\n")
    }

    fn write_all(&self, bytes: &[u8]) -> Result<()> {
        answer(io::write_all(OUTPUT, bytes))
    }

    // One byte, so that a write that failed has written none.
    fn write_some(&self, bytes: &[u8]) -> Result<usize> {
        let size = bytes.len().min(1);
        self.write_all(&bytes[..size])?;
        Ok(size)
    }
}

impl Eprint for Outputs {
    fn eprint<D: Display + Drop>(&self, value: D) -> Result<()> {
        print_to(ERROR, value, "")
    }

    fn eprintln<D: Display + Drop>(&self, value: D) -> Result<()> {
        print_to(ERROR, value, "\n")
    }
}

// Writes a line to standard error. Where that fails too, nothing is left to be done.
pub fn tell(line: &[u8]) {
    io::write_all(ERROR, line);
}

// The text of a call, kept until it is whole or fills its room.
#[derive(Drop)]
struct Text {
    number: i32,
    bytes: [u8; ROOM],
    size: usize,
}

impl Text {
    fn write_kept(&mut self) -> bool {
        let size = self.size.min(ROOM);
        self.size = 0;
        io::write_all(self.number, &self.bytes[..size])
    }

    fn keep(&mut self, byte: u8) -> bool {
        if self.size >= ROOM && !self.write_kept() {
            return false;
        }
        let size = self.size;
        if size >= ROOM {
            return false;
        }
        self.bytes[size] = byte;
        self.size = size + 1;
        true
    }
}

impl Write for Text {
    fn write_str(&mut self, s: &str) -> fmt::Result {
        for byte in s.as_bytes() {
            if !self.keep(*byte) {
                return Err(fmt::Error);
            }
        }
        Ok(())
    }
}

// Writes the value and what ends it, as far as it is told.
fn print_to<D: Display + Drop>(number: i32, value: D, end: &str) -> Result<()> {
    let mut text = Text {
        number,
        bytes: [0; ROOM],
        size: 0,
    };
    let told = text.write(value).is_ok() && text.write_str(end).is_ok();
    answer(text.write_kept() && told)
}

fn answer(written: bool) -> Result<()> {
    if written {
        Ok(())
    } else {
        Err(Error::from(ErrorKind::Other))
    }
}
