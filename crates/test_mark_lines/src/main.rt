// Runs many stored inputs of print_marks and prints their lines one behind the other. Standard input holds for each its length (four bytes,
// little endian) and its bytes.
#![tactic(auto)]

use std::io;

fn main(rt: HostRuntime) {
    // A length that cannot be read or a write that fails ends it, and nothing is left to be done then. A read that fails behind a length ends
    // its text alone.
    let _ = steps(&rt);
}

fn steps(rt: &HostRuntime) -> io::Result<()> {
    let mut reader = rt.stdin();
    let mut room = [0u8; 30216];
    let mut out = mark_lines::buffer();
    // More turns than any stored input has texts.
    for _ in 0..100_000 {
        let Some(size) = test_buffers::read_text_once(&mut reader, &mut room)? else {
            break;
        };
        let count = mark_lines::show(&room, size, &mut out);
        rt.write_all(&out[..count])?;
    }
    Ok(())
}
