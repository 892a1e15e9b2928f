// The console on captured traffic in which queues are deleted and created again: 2,432 I/O and 387 admin commands of a driver of
// our own, in user space, on QEMU 7.2. Several SQs share CQs of 3 to 64 entries. 51 SQs and 20 CQs are deleted, 25 and 6 of them
// with unstarted or unread entries, and most ids come again, with rings of other sizes at other places. The answers that it is held
// to are from QEMU's own trace and the bytes of its rings. A deletion stands where QEMU ended it. QEMU does not refuse one while
// commands are outstanding (33) but ends and posts these first, so that no answer here is 33.
#![tactic(auto)]

fn main(rt: HostRuntime) {
    dialogue::run(&rt, &mut rt.stdin(), &mut rt.stdout());
}
