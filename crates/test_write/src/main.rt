// Writes the lists of words that standard input makes, reads back what was written, and prints each answer.
//
// The input is steps of six bytes, three little endian numbers each: a kind and two values. Of a kind the low byte alone
// counts.
//     0 PLACE WORD    the word at PLACE becomes WORD (at first all words are 0)
//     1 COUNT ROOM    the first COUNT words are written into a buffer of ROOM bytes, all of old content; the bytes written are read
//                     into a buffer of COUNT words, all of old content
// compare/store makes the input, and what must be printed, by the independent implementation.
#![tactic(auto)]

ghost use Rattle.std.specs.Prelude.{◌≤◌, length};

use std::io;
use test_buffers::FirstSteps;

fn main(rt: HostRuntime) {
    // A read or a write that fails ends it, and nothing is left to be done then.
    let _ = steps(&rt);
}

fn steps(rt: &HostRuntime) -> io::Result<()> {
    let mut words = [0u16; 2816];
    let mut bytes = [0u8; 9216];
    let mut back = [0u16; 2816];
    for step in FirstSteps::<_, 3>::new(rt.stdin()) {
        let [kind, first, second] = step?;
        match kind.to_le_bytes()[0] {
            0 => test_buffers::change(&mut words, first, second),
            _ => run(rt, &words, first, &mut bytes, second, &mut back)?,
        }
    }
    Ok(())
}

// Writes the first words into so many bytes, and prints the answer.
fn run(
    rt: &impl Print,
    words: &[u16],
    count: u16,
    bytes: &mut [u8],
    room: u16,
    back: &mut [u16],
) -> io::Result<()> {
    let Some(given) = words.get(..usize::from(count)) else {
        return Ok(());
    };
    let Some(buffer) = bytes.get_mut(..usize::from(room)) else {
        return Ok(());
    };
    test_buffers::put_old(buffer);
    let writing = writer::write(given, buffer);
    print!(rt; "words {count} room {room}")?;
    let digest = test_buffers::digest(buffer);
    match writing {
        Ok(size) => {
            print!(rt; " bytes {size} digest {digest}")?;
            print_written(rt, buffer, size, back, count)
        }
        Err(refusal) => println!(rt; " refused {} digest {digest}", u32::from(refusal)),
    }
}

// Prints what reading the file in front of the buffer gives, then number, use count and check of each of its blocks.
fn print_written(
    rt: &impl Print,
    buffer: &[u8],
    size: usize,
    back: &mut [u16],
    count: u16,
) -> io::Result<()> {
    let Some(file) = buffer.get(..size) else {
        return Ok(());
    };
    read_back(rt, file, back, count)?;
    println!(rt;)?;
    for block in file.chunks_exact(512) {
        print_block(rt, block)?;
    }
    Ok(())
}

// Reads a file back into so many words.
fn read_back(rt: &impl Print, file: &[u8], back: &mut [u16], count: u16) -> io::Result<()> {
    let Some(words) = back.get_mut(..usize::from(count)) else {
        return Ok(());
    };
    test_buffers::put_old(words);
    match file::read(file, words) {
        Ok(read) => print!(rt; " read {read}")?,
        Err(refusal) => print!(rt; " unread {}", u32::from(refusal))?,
    }
    print!(rt; " digest {}", test_buffers::digest(words))
}

fn print_block(rt: &impl Print, block: &[u8]) -> io::Result<()>
    requires { 512 ≤ length block.now }
{
    let number = u16::from_le_bytes([block[0], block[1]]);
    let used = u16::from_le_bytes([block[2], block[3]]);
    let check = u16::from_le_bytes([block[510], block[511]]);
    println!(rt; "block {number} used {used} check {check}")
}
