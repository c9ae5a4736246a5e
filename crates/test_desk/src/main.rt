// Hands the words that standard input makes to the setup desk, with buffers of any length, and prints each answer.
//
// The input is steps of eight bytes, four little endian numbers each: a kind and three values. Of a kind the low byte alone
// counts.
//     0 PLACE WORD 0        the word at PLACE becomes WORD (at first all words are 0)
//     1 SIZE COSTS RULES    the first SIZE words are handed in, with so many words for costs and rules, all of old content
// compare/store makes the input, and what must be printed, by the independent implementation.
#![tactic(auto)]

use std::io;
use test_buffers::FirstSteps;

fn main(rt: HostRuntime) {
    // A read or a write that fails ends it, and nothing is left to be done then.
    let _ = steps(&rt);
}

fn steps(rt: &HostRuntime) -> io::Result<()> {
    let mut words = [0u16; 4096];
    let mut costs = [0u16; 512];
    let mut rules = [0u16; 512];
    for step in FirstSteps::<_, 4>::new(rt.stdin()) {
        let [kind, first, second, third] = step?;
        match kind.to_le_bytes()[0] {
            0 => test_buffers::change(&mut words, first, second),
            _ => {
                let Some(words) = words.get(..usize::from(first)) else {
                    continue;
                };
                let Some(costs) = costs.get_mut(..usize::from(second)) else {
                    continue;
                };
                let Some(rules) = rules.get_mut(..usize::from(third)) else {
                    continue;
                };
                run(rt, words, costs, rules)?;
            }
        }
    }
    Ok(())
}

// Hands the words in with these buffers, and prints the answer.
fn run(rt: &impl Print, words: &[u16], costs: &mut [u16], rules: &mut [u16]) -> io::Result<()> {
    test_buffers::put_old(costs);
    test_buffers::put_old(rules);
    let answer = desk::costs(words, costs, rules);
    print!(rt;
        "words {} costs {} rules {}",
        words.len(),
        costs.len(),
        rules.len()
    )?;
    match answer {
        Ok(count) => print!(rt; " given {count}")?,
        Err(refusal) => print!(rt; " refused {}", u32::from(refusal))?,
    }
    let left = test_buffers::digest(costs);
    let listed = test_buffers::digest(rules);
    println!(rt; " digest {left} digest {listed}")
}
