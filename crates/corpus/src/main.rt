// The console on a random script, whose answers the second implementation gave.
#![tactic(auto)]

fn main(rt: HostRuntime) {
    dialogue::run(&rt, &mut rt.stdin(), &mut rt.stdout());
}
