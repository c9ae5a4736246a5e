// The program that writes grammar files, on a text with a word that is no number: it must print nothing to standard output.
#![tactic(auto)]

fn main(rt: HostRuntime) {
    making::run(&mut rt.stdin());
    let _ = println!(rt; "nothing else was printed");
}
