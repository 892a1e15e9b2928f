// The console on its guided tour, with each line repeated before its answer.
#![tactic(auto)]

fn main(rt: HostRuntime) {
    dialogue::run_under(&rt, &mut rt.stdin(), &mut rt.stdout());
}
