// Spells the texts of standard input and prints each answer.
//
// A text is its length, a little endian number of four bytes, and so many bytes. It is handed over in parts of 1, 2, 3, .. 64 bytes, and
// then of 1 byte again, so that parts that cut a number are met.
#![tactic(auto)]

use spelling::{NoNumber, Spelled};
use std::io;
use std::io::Read;

// The longest part.
const MOST: usize = 64;

fn main(rt: HostRuntime) {
    // A length that cannot be read or a write that fails ends it, and nothing is left to be done then. A read that fails behind a length ends
    // its text alone.
    let _ = steps(&rt);
}

fn steps(rt: &HostRuntime) -> io::Result<()> {
    let mut reader = rt.stdin();
    let mut words = [0u16; 2784];
    // More turns than any stored input has texts.
    for _ in 0..1_000_000 {
        let Some(size) = test_buffers::read_size_once(&mut reader)? else {
            break;
        };
        // The word buffer holds old content before.
        test_buffers::put_old(&mut words);
        let state = read_text(&mut reader, size, &mut words);
        match spelling::finish(state, &mut words) {
            Ok(count) => println!(rt; "words {count} digest {}", test_buffers::digest(&words))?,
            Err(NoNumber { place }) => println!(rt; "no number {place}")?,
        }
    }
    Ok(())
}

// Goes through a text of so many bytes, in parts of 1, 2, 3, .. 64 bytes and then of 1 byte again. Where the input ends or a read fails
// before, the parts are of what came.
fn read_text<R: Read>(reader: &mut R, size: usize, words: &mut [u16]) -> Spelled {
    let mut space = [0u8; MOST];
    let mut state = spelling::begin();
    let mut left = size;
    let mut part = 1;
    while left > 0 {
        let now = part.min(left);
        let (read, _) = test_buffers::read_full(reader, &mut space[..now]);
        state = spelling::take(state, &space[..read], words);
        left -= now;
        part = part % MOST + 1;
    }
    state
}
