// Runs the pace report on grammars, logs and ticks that standard input makes, in buffers of any length, and prints each answer.
//
// The input is steps of twelve bytes, six little endian numbers each: a kind and five values.
//     0 PLACE WORD 0 0 0           the grammar's word at PLACE becomes WORD
//     1 PLACE TOKEN LOW HIGH 0     the log's token at PLACE becomes TOKEN, and the tick there LOW + 65536 x HIGH
//     2 WORDS TOKENS TICKS E R     the report of so many words, tokens and ticks, with E words for edits and R for rules, all of
//                                  old content
// README.md says where the input and the expected answers come from.
#![tactic(auto)]

use grammar::Pace;
use std::io;
use test_buffers::FirstSteps;

fn main(rt: HostRuntime) {
    // A read or a write that fails ends it, and nothing is left to be done then.
    let _ = steps(&rt);
}

fn steps(rt: &HostRuntime) -> io::Result<()> {
    let mut words = [0u16; 2816];
    let mut log = [0u16; 4352];
    let mut ticks = [0u32; 4352];
    let mut edits = [0u16; 4096];
    let mut rules = [0u16; 4096];
    for step in FirstSteps::<_, 6>::new(rt.stdin()) {
        let [kind, first, second, third, fourth, fifth] = step?;
        match kind {
            0 => test_buffers::change(&mut words, first, second),
            1 => {
                let tick = u32::from(third) + 65536 * u32::from(fourth);
                test_buffers::change(&mut log, first, second);
                test_buffers::change(&mut ticks, first, tick);
            }
            _ => {
                let Some(words) = words.get(..usize::from(first)) else {
                    continue;
                };
                let Some(log) = log.get(..usize::from(second)) else {
                    continue;
                };
                let Some(ticks) = ticks.get(..usize::from(third)) else {
                    continue;
                };
                let Some(edits) = edits.get_mut(..usize::from(fourth)) else {
                    continue;
                };
                let Some(rules) = rules.get_mut(..usize::from(fifth)) else {
                    continue;
                };
                run(rt, words, log, ticks, edits, rules)?;
            }
        }
    }
    Ok(())
}

// The report of these tokens and ticks in these buffers.
fn run(
    rt: &impl Print,
    words: &[u16],
    log: &[u16],
    ticks: &[u32],
    edits: &mut [u16],
    rules: &mut [u16],
) -> io::Result<()> {
    test_buffers::put_old(edits);
    test_buffers::put_old(rules);
    match pace::report(words, log, ticks, edits, rules) {
        Ok((report, _)) => {
            print!(rt; "cycles {} ms {}", report.count, report.sum)?;
            print_pace(rt, report.pace)?;
        }
        Err(refusal) => print!(rt; "refused {}", u32::from(refusal))?,
    }
    let edited = test_buffers::digest(edits);
    let listed = test_buffers::digest(rules);
    println!(rt; " digests {edited} {listed}")
}

// The mean by its 64 bits: a mean that was rounded twice, or in fewer bits, shows. No mean is below 0 or no number, so that the last line is
// never printed.
fn print_pace(rt: &impl Print, pace: Pace) -> io::Result<()> {
    match pace {
        Pace::Idle => print!(rt; " idle"),
        Pace::Mean(mean) if mean >= 0.0 => print!(rt; " mean {}", mean.to_bits()),
        Pace::Mean(_) => print!(rt; " mean of no number"),
    }
}
