// The console. Its stored input is a guided tour of the rules.
#![tactic(auto)]

fn main(rt: HostRuntime) {
    dialogue::run(&rt, &mut rt.stdin(), &mut rt.stdout());
}
