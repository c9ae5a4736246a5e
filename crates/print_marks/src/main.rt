// The program that prints the repaired log, one mark to a line: document 02, request (iv).
#![tactic(auto)]

fn main(rt: HostRuntime) {
    printing::run_marks_on(&rt, &mut rt.stdin());
}
