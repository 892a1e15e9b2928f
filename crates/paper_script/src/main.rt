// The traced examples of documents 01 and 02: each answer is printed beside what is wanted.
#![tactic(auto)]

fn main(rt: HostRuntime) {
    dialogue::run_beside(&rt, &mut rt.stdin(), &mut rt.stdout());
}
