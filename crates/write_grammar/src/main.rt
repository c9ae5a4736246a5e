// The program that writes grammar files: document 02, request (i).
#![tactic(auto)]

fn main(rt: HostRuntime) {
    making::run_on(&rt, &mut rt.stdin());
}
