// The console on captured traffic: 3,214 I/O and 317 admin commands of the Linux 6.1 driver on QEMU 7.2, on I/O queues of 32 entries.
// The answers that it is held to are from QEMU's own trace and the bytes of its rings. Repeated doorbell values, as
// shadow doorbells give them, are dropped.
#![tactic(auto)]

fn main(rt: HostRuntime) {
    dialogue::run(&rt, &mut rt.stdin(), &mut rt.stdout());
}
