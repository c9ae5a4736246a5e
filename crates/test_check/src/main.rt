// Runs the grammar check on the words that standard input makes, and prints each answer.
//
// The input is steps of six bytes, three little endian numbers each: a kind and two values.
//     0 PLACE WORD    the word at PLACE becomes WORD (at first all words are 0)
//     1 SIZE CASE     the first SIZE words are checked, and the answer is printed as that of CASE
// expected.py makes the input, and what must be printed, from document 01 alone.
#![tactic(auto)]

use std::io;
use test_buffers::FirstSteps;

fn main(rt: HostRuntime) {
    // A read or a write that fails ends it, and nothing is left to be done then.
    let _ = steps(&rt);
}

fn steps(rt: &HostRuntime) -> io::Result<()> {
    let mut words = [0u16; 4096];
    for step in FirstSteps::<_, 3>::new(rt.stdin()) {
        let [kind, first, second] = step?;
        match kind {
            0 => test_buffers::change(&mut words, first, second),
            _ => run(rt, &words, first, second)?,
        }
    }
    Ok(())
}

// Checks the first so many words, and prints the answer as that of a case.
fn run(rt: &impl Print, words: &[u16], size: u16, case: u16) -> io::Result<()> {
    let Some(words) = words.get(..usize::from(size)) else {
        return Ok(());
    };
    match verdict::check(words) {
        Ok(()) => println!(rt; "case {case} accepted"),
        Err(refusal) => println!(rt; "case {case} refused {}", u32::from(refusal)),
    }
}
