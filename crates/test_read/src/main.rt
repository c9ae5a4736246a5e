// Runs the reader of grammar files on the files that standard input makes, and prints each answer.
//
// The input is steps of six bytes, three little endian numbers each: a kind and two values.
//     0 PLACE BYTE    the file's byte at PLACE becomes BYTE (at first all its bytes are 0)
//     1 SIZE ROOM     the file's first SIZE bytes are read into a buffer of ROOM words, all of old content
//     2 GROUP 0       a group of cases begins
// expected.py makes the input, and what must be printed, from document 01 alone.
#![tactic(auto)]

use std::io;
use test_buffers::FirstSteps;

fn main(rt: HostRuntime) {
    // A read or a write that fails ends it, and nothing is left to be done then.
    let _ = steps(&rt);
}

fn steps(rt: &HostRuntime) -> io::Result<()> {
    let mut file = [0u8; 6656];
    let mut words = [0u16; 2816];
    for step in FirstSteps::<_, 3>::new(rt.stdin()) {
        let [kind, first, second] = step?;
        match kind {
            0 => test_buffers::change(&mut file, first, second.to_le_bytes()[0]),
            1 => run(rt, &file, first, &mut words, second)?,
            _ => println!(rt; "group {first}")?,
        }
    }
    Ok(())
}

// Reads the first so many bytes into so many words, and prints the answer.
fn run(rt: &impl Print, file: &[u8], size: u16, words: &mut [u16], room: u16) -> io::Result<()> {
    let Some(bytes) = file.get(..usize::from(size)) else {
        return Ok(());
    };
    let Some(buffer) = words.get_mut(..usize::from(room)) else {
        return Ok(());
    };
    test_buffers::put_old(buffer);
    let reading = file::read(bytes, buffer);
    print!(rt; "bytes {size} room {room}")?;
    match reading {
        Ok(count) => print!(rt; " words {count}")?,
        Err(refusal) => print!(rt; " refused {}", u32::from(refusal))?,
    }
    println!(rt; " digest {}", test_buffers::digest(buffer))
}
