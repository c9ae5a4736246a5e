// Runs the pace report on the bench examples of document 01 that have a log, with their ticks, on examples of equal marks, both marks 0 and
// a missing tick, and on those of requests (vi) and (viii). It prints each answer; README.md says where the expected ones come from.
#![tactic(auto)]

use grammar::{Counts, Pace, Refusal, Report};
use std::io;

// Document 01, "Bench examples": the terminals start, pole, crimp, done and pause of grammar G.
const START: u16 = 1;

const POLE: u16 = 2;

const CRIMP: u16 = 3;

const DONE: u16 = 4;

const PAUSE: u16 = 5;

// Grammar G: header, cost and reliability of each terminal, rules.
const GRAMMAR_G: [u16; 42] = [
    7, 4, 6, 1, 4, 0, 0, 0, 20, 60, 3, 9, 5, 15, 4, 40, 3, 2, 3, 2, 0, 2, 65, 64, 0, 0, 1, 3, 1,
    66, 4, 2, 3, 2, 67, 3, 3, 2, 5, 6, 3, 0,
];

// Three cycles of G, with ticks.
const THREE: [u16; 12] = [1, 2, 3, 4, 1, 2, 3, 4, 1, 2, 3, 4];

const THREE_TICKS: [u32; 12] = [
    1000, 1010, 1020, 1030, 1100, 1110, 1120, 1130, 1301, 1310, 1320, 1330,
];

// Grammar H of request (vi): T 5, marks 1 and 3, restart mark 4, which is also what a log of it calls a restart.
const RESTART: u16 = 4;

const GRAMMAR_H: [u16; 42] = [
    261, 3, 7, 1, 3, 0, 4, 0, 0, 20, 60, 3, 9, 4, 40, 1, 2, 0, 2, 65, 64, 0, 2, 4, 64, 0, 0, 1, 3,
    1, 66, 3, 2, 2, 2, 66, 2, 2, 4, 66, 2, 0,
];

fn main(rt: HostRuntime) {
    // A read or a write that fails ends it, and nothing is left to be done then.
    let _ = steps(&rt);
}

fn steps(rt: &HostRuntime) -> io::Result<()> {
    cases(rt)?;
    marks(rt)?;
    units(rt)?;
    order(rt)?;
    restarts(rt)
}

// Cases 1 to 8. "Ticks not named are 0": case 2 has a cycle of 0 ms and is not idle. Case 5 has the listing's ticks.
fn cases(rt: &impl Print) -> io::Result<()> {
    let empty_log = [0u16; 0];
    let empty_ticks = [0u32; 0];
    let g = grammar_g(START, DONE, 0, 40);
    run(rt, "case 1", g, &empty_log, &empty_ticks)?;
    run(rt, "case 2", g, &[START, POLE, CRIMP, DONE], &[0, 0, 0, 0])?;
    run(rt, "case 3", g, &[START, POLE, DONE], &[0, 0, 0])?;
    run(rt, "case 4", g, &[DONE], &[0])?;
    run(
        rt,
        "case 5",
        g,
        &[START, START, POLE, CRIMP, DONE],
        &[100, 250, 400, 900, 1250],
    )?;
    run(
        rt,
        "case 6",
        grammar_g(START, DONE, 0, 5),
        &[START, POLE, DONE],
        &[0, 0, 0],
    )?;
    run(rt, "case 7", g, &[START, POLE, CRIMP, PAUSE], &[0, 0, 0, 0])?;
    run(
        rt,
        "case 8",
        g,
        &[START, POLE, CRIMP, DONE],
        &[4294967196, 0, 0, 904],
    )?;
    Ok(())
}

// Equal marks: each start closes the cycle before it and opens the next. Other marks, and none.
fn marks(rt: &impl Print) -> io::Result<()> {
    let log = THREE;
    let ticks = THREE_TICKS;
    run(
        rt,
        "three cycles",
        grammar_g(START, DONE, 0, 40),
        &log,
        &ticks,
    )?;
    run(
        rt,
        "equal marks start",
        grammar_g(START, START, 0, 40),
        &log,
        &ticks,
    )?;
    run(
        rt,
        "equal marks done",
        grammar_g(DONE, DONE, 0, 40),
        &log,
        &ticks,
    )?;
    run(
        rt,
        "marks done, start",
        grammar_g(DONE, START, 0, 40),
        &log,
        &ticks,
    )?;
    run(rt, "no marks", grammar_g(0, 0, 0, 40), &log, &ticks)?;
    Ok(())
}

// Request (viii): no pace comes of unit 1, which is refused with 16 and never idle. A tick too few is refusal 10.
fn units(rt: &impl Print) -> io::Result<()> {
    let empty_log = [0u16; 0];
    let empty_ticks = [0u32; 0];
    let log = [START, POLE, CRIMP, DONE];
    let ticks = [100u32, 250, 400, 900];
    let g1 = grammar_g(START, DONE, 1, 40);
    run(rt, "unit 0", grammar_g(START, DONE, 0, 40), &log, &ticks)?;
    run(rt, "unit 1", g1, &log, &ticks)?;
    run(rt, "unit 1, empty log", g1, &empty_log, &empty_ticks)?;
    run(rt, "unit 1, no cycle", g1, &[DONE], &[0])?;
    run(rt, "unit 1, no marks", grammar_g(0, 0, 1, 40), &log, &ticks)?;
    run(
        rt,
        "three ticks",
        grammar_g(START, DONE, 0, 40),
        &log,
        &[100, 250, 400],
    )?;
    Ok(())
}

// Where 16 stands: behind 5 and 10, before 11 and 12.
fn order(rt: &impl Print) -> io::Result<()> {
    let empty_ticks = [0u32; 0];
    let short = [3u16, 1, 2, 0, 0, 1, 0, 0, 1, 0, 1, 0, 0, 3, 1, 64, 2, 0];
    let g1 = grammar_g(START, DONE, 1, 40);
    run(rt, "unit 1, no tick", g1, &[START], &empty_ticks)?;
    run(rt, "unit 1, token 7", g1, &[7], &[0])?;
    roomy(rt, "unit 1, a word short", &short, &[1], &[0])?;
    roomless(rt, "unit 0, no room", grammar_g(START, DONE, 0, 40))?;
    roomless(rt, "unit 1, no room", g1)?;
    deep(rt, "unit 0, too deep", brackets(0))?;
    deep(rt, "unit 1, too deep", brackets(1))?;
    Ok(())
}

// A log of start alone, with no room for edits and rules.
fn roomless(rt: &impl Print, name: &str, words: [u16; 42]) -> io::Result<()> {
    let mut edits = [0u16; 0];
    let mut rules = [0u16; 0];
    let paced = pace::report(&words, &[START], &[0], &mut edits, &mut rules);
    print_paced(rt, name, paced)
}

// 254 brackets that open.
fn deep(rt: &impl Print, name: &str, words: [u16; 19]) -> io::Result<()> {
    let log = [1u16; 254];
    let ticks = [0u32; 254];
    let mut edits = [0u16; 0];
    let mut rules = [0u16; 254];
    let paced = pace::report(&words, &log, &ticks, &mut edits, &mut rules);
    print_paced(rt, name, paced)
}

// 64 -> 1 64 2; 64 -> empty, without marks, costs 1 and reliabilities 0, with this tick unit.
fn brackets(unit: u16) -> [u16; 19] {
    [3, 1, 2, 0, 0, unit, 0, 0, 1, 0, 1, 0, 0, 3, 1, 64, 2, 0, 0]
}

// Request (vi): a kept restart mark inside a cycle makes it unclean; before, between and behind cycles it does nothing.
fn restarts(rt: &impl Print) -> io::Result<()> {
    let h = grammar_h(RESTART);
    let log = [1u16, RESTART, 3];
    let ticks = [100u32, 0, 30];
    run(rt, "no restart", h, &[1, 2, 3], &[0, 10, 30])?;
    run(rt, "a restart inside", h, &log, &ticks)?;
    run(rt, "restart mark 0", grammar_h(0), &log, &ticks)?;
    run(
        rt,
        "a restart between",
        h,
        &[1, 2, 3, RESTART, 1, 2, 3],
        &[100, 110, 130, 0, 5, 10, 25],
    )?;
    run(
        rt,
        "in the first of two",
        h,
        &[1, 2, RESTART, 2, 3, 1, 3],
        &[900, 950, 0, 40, 60, 70, 95],
    )?;
    run(rt, "behind an edit", h, &[1, 1, RESTART, 3], &[5, 9, 0, 2])?;
    run(rt, "restart mark 2", grammar_h(2), &log, &[100, 200, 230])?;
    run(rt, "restart mark 1", grammar_h(1), &log, &ticks)?;
    run(rt, "token 5", h, &[5], &[0])?;
    Ok(())
}

// Grammar H with this restart mark.
fn grammar_h(restart: u16) -> [u16; 42] {
    let mut words = GRAMMAR_H;
    words[6] = restart;
    words
}

// Grammar G with these marks, this tick unit and this reliability of done.
fn grammar_g(opening: u16, closing: u16, unit: u16, done: u16) -> [u16; 42] {
    let mut words = GRAMMAR_G;
    words[3] = opening;
    words[4] = closing;
    words[5] = unit;
    words[15] = done;
    words
}

fn run(
    rt: &impl Print,
    name: &str,
    words: [u16; 42],
    log: &[u16],
    ticks: &[u32],
) -> io::Result<()> {
    roomy(rt, name, &words, log, ticks)
}

fn roomy(rt: &impl Print, name: &str, words: &[u16], log: &[u16], ticks: &[u32]) -> io::Result<()> {
    let mut edits = [0u16; 96];
    let mut rules = [0u16; 96];
    let paced = pace::report(words, log, ticks, &mut edits, &mut rules);
    print_paced(rt, name, paced)
}

fn print_paced(
    rt: &impl Print,
    name: &str,
    paced: Result<(Report, Counts), Refusal>,
) -> io::Result<()> {
    match paced {
        Ok((report, _)) => print_report(rt, name, report),
        Err(refusal) => println!(rt; "{name}: refused {}", u32::from(refusal)),
    }
}

// Of the mean, its whole part.
fn print_report(rt: &impl Print, name: &str, report: Report) -> io::Result<()> {
    let count = report.count;
    let sum = report.sum;
    match report.pace {
        Pace::Idle => println!(rt; "{name}: cycles {count} ms {sum} idle"),
        Pace::Mean(mean) => {
            println!(rt; "{name}: cycles {count} ms {sum} mean {}", whole_part(mean))
        }
    }
}

fn whole_part(x: f64) -> u64 {
    if x > -1.0 {
        if x < 18446744073709551616.0 {
            return std::num::truncating_f64_to_u64(x);
        }
    }
    0
}
