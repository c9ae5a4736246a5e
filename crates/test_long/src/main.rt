// The printing program, on an input longer than its room.
#![tactic(auto)]

fn main(rt: HostRuntime) {
    printing::run(&mut rt.stdin());
}
