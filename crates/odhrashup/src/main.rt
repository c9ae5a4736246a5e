// The printing program: document 01, "The printed listing".
#![tactic(auto)]

fn main(rt: HostRuntime) {
    printing::run_on(&rt, &mut rt.stdin());
}
