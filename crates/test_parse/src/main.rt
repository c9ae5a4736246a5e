// Runs the parser on grammars and logs that standard input makes, in buffers of any length, and prints each answer.
//
// The input is steps of ten bytes, five little endian numbers each: a kind and four values.
//     0 PLACE WORD 0 0      the grammar's word at PLACE becomes WORD
//     1 PLACE TOKEN 0 0     the log's token at PLACE becomes TOKEN
//     2 WORDS TOKENS E R    so many words and tokens are parsed, with E words for edits and R for rules, all of old content
// README.md says where the input and the expected answers come from.
#![tactic(auto)]

use grammar::Counts;
use std::io;
use test_buffers::FirstSteps;

fn main(rt: HostRuntime) {
    // A read or a write that fails ends it, and nothing is left to be done then.
    let _ = steps(&rt);
}

fn steps(rt: &HostRuntime) -> io::Result<()> {
    let mut words = [0u16; 2816];
    let mut log = [0u16; 4352];
    let mut edits = [0u16; 4096];
    let mut rules = [0u16; 4096];
    for step in FirstSteps::<_, 5>::new(rt.stdin()) {
        let [kind, first, second, third, fourth] = step?;
        match kind {
            0 => test_buffers::change(&mut words, first, second),
            1 => test_buffers::change(&mut log, first, second),
            _ => {
                let Some(words) = words.get(..usize::from(first)) else {
                    continue;
                };
                let Some(log) = log.get(..usize::from(second)) else {
                    continue;
                };
                let Some(edits) = edits.get_mut(..usize::from(third)) else {
                    continue;
                };
                let Some(rules) = rules.get_mut(..usize::from(fourth)) else {
                    continue;
                };
                run(rt, words, log, edits, rules)?;
            }
        }
    }
    Ok(())
}

// Parses these tokens in these buffers, and prints the answer.
fn run(
    rt: &impl Print,
    words: &[u16],
    log: &[u16],
    edits: &mut [u16],
    rules: &mut [u16],
) -> io::Result<()> {
    test_buffers::put_old(edits);
    test_buffers::put_old(rules);
    match parser::parse(words, log, edits, rules) {
        Ok(
            Counts {
                moves,
                records,
                listed,
            },
        ) => {
            print!(rt; "moves {moves} edits {records} rules {listed}")?;
        }
        Err(refusal) => print!(rt; "refused {}", u32::from(refusal))?,
    }
    let edited = test_buffers::digest(edits);
    let listed = test_buffers::digest(rules);
    println!(rt; " digests {edited} {listed}")
}
