// The printing program, where its input cannot be read: it must print nothing to standard output.
#![tactic(auto)]

use std::io;
use std::io::{Error, ErrorKind, Read};

// An input of which each read fails.
#[derive(Drop)]
struct Unreadable;

impl Read for Unreadable {
    fn read(&mut self, _buf: &mut [u8]) -> io::Result<usize> {
        Err(Error::from(ErrorKind::Other))
    }
}

fn main(rt: HostRuntime) {
    printing::run(&mut Unreadable);
    let _ = println!(rt; "nothing else was printed");
}
