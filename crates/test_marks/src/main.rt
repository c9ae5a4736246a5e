// Writes the repaired logs of grammars and logs that standard input makes in marks alone, in buffers of any length, and prints each answer.
//
// The input is steps of twelve bytes, six little endian numbers each: a kind and five values.
//     0 PLACE WORD 0 0 0      the grammar's word at PLACE becomes WORD
//     1 PLACE TOKEN 0 0 0     the log's token at PLACE becomes TOKEN
//     2 WORDS TOKENS E R M    so many words and tokens are handed in, with E words for edits, R for rules and M for the result, all of
//                             old content
// compare/store makes the input, and what must be printed, by the independent implementation.
#![tactic(auto)]

use grammar::Counts;
use std::io;
use test_buffers::FirstSteps;

fn main(rt: HostRuntime) {
    // A read or a write that fails ends it, and nothing is left to be done then.
    let _ = steps(&rt);
}

fn steps(rt: &HostRuntime) -> io::Result<()> {
    let mut words = [0u16; 2816];
    let mut log = [0u16; 4352];
    let mut edits = [0u16; 4096];
    let mut rules = [0u16; 4096];
    let mut tokens = [0u16; 65535];
    for step in FirstSteps::<_, 6>::new(rt.stdin()) {
        let [kind, first, second, third, fourth, fifth] = step?;
        match kind {
            0 => test_buffers::change(&mut words, first, second),
            1 => test_buffers::change(&mut log, first, second),
            _ => {
                let Some(words) = words.get(..usize::from(first)) else {
                    continue;
                };
                let Some(log) = log.get(..usize::from(second)) else {
                    continue;
                };
                let Some(edits) = edits.get_mut(..usize::from(third)) else {
                    continue;
                };
                let Some(rules) = rules.get_mut(..usize::from(fourth)) else {
                    continue;
                };
                let Some(tokens) = tokens.get_mut(..usize::from(fifth)) else {
                    continue;
                };
                run(rt, words, log, edits, rules, tokens)?;
            }
        }
    }
    Ok(())
}

// Writes the repaired log in marks alone into these buffers, and prints the answer.
fn run(
    rt: &impl Print,
    words: &[u16],
    log: &[u16],
    edits: &mut [u16],
    rules: &mut [u16],
    tokens: &mut [u16],
) -> io::Result<()> {
    test_buffers::put_old(edits);
    test_buffers::put_old(rules);
    test_buffers::put_old(tokens);
    match marks::marks(words, log, edits, rules, tokens) {
        Ok(
            (
                Counts {
                    moves,
                    records,
                    listed,
                },
                size,
            ),
        ) => {
            print!(rt; "moves {moves} edits {records} rules {listed} tokens {size}")?;
        }
        Err(refusal) => print!(rt; "refused {}", u32::from(refusal))?,
    }
    let edited = test_buffers::digest(edits);
    let listed = test_buffers::digest(rules);
    let marked = test_buffers::digest(tokens);
    println!(rt; " digests {edited} {listed} {marked}")
}
