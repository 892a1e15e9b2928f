// What bench/run times: batches of commands that go through a controller, or of an arbiter's choices, beside plain C programs of the
// same loops. The plan stands on one line of standard input, and a digest of all answers goes to standard output.
#![tactic(auto)]

ghost use Rattle.std.specs.Prelude.{◌<◌, ◌≤◌, length};
ghost use Rattle.store.specs.Held.{Reached};

use arbiter::{Arbiter, Candidates};
use controller::{Finished, Started};
use doorbells::{head_write, tail_write};
use entry::submission::Submission;
use finisher::finish;
use parse::line::{Word, next_word};
use parse::number::value_of;
use queues::create::{create_cq, create_sq};
use rules::refusal::{Refusal, code};
use starter::start;
use std::io;
use std::io::Read;
use store::{WORDS, reset};

// A page for each of the 16 submission and 16 completion rings.
const MEMORY_BYTES: usize = 131072;

const QUEUES: u64 = 16;

const SIZE: u64 = 64;

// The commands that a batch submits to each busy queue.
const SUBMITTED: u64 = 62;

// A burst of 4, and the weights 2, 4 and 8.
const WORD: u32 = 0x07030102;

// A burst of 1, so that every choice names the next turn holder, and a low weight of 256.
const TURNS: u32 = 0xFF00;

// The queues but queue 0, and the choices of a batch.
const OTHERS: usize = 15;

const CHOICES: u64 = 960;

// What is read of the plan at most.
const INPUT_BYTES: usize = 4096;

// What the batches are made of, by the numbers of the plan from 0 on: an empty loop, tail writes that are accepted, commands, fused
// pairs, and head writes of the value held, which are refused; then choices, where one queue is busy and comes right after the turn
// holder, where it is the holder and comes last, and where many are busy.
#[derive(Clone, Copy, PartialEq, Eq)]
enum Kind {
    Idle,
    Tails,
    Commands,
    Pairs,
    Held,
    Nearest,
    Farthest,
    Busy,
}

impl From<u64> for Kind {
    fn from(n: u64) -> Kind {
        match n {
            1 => Kind::Tails,
            2 => Kind::Commands,
            3 => Kind::Pairs,
            4 => Kind::Held,
            5 => Kind::Nearest,
            6 => Kind::Farthest,
            7 => Kind::Busy,
            _ => Kind::Idle,
        }
    }
}

// The doorbells of a queue pair.
#[derive(Clone, Copy)]
enum Doorbell {
    Tail,
    Head,
}

// `busy` is the number of queues with commands, and `outstanding` that of the commands which stay outstanding beside those of the batch.
#[derive(Clone, Copy)]
struct Plan {
    kind: Kind,
    mechanism: u64,
    busy: u64,
    outstanding: u64,
    batches: u64,
}

// The digest of the answers, the tail of each busy queue, the tail of its completion queue, and the tag that is finished next.
#[derive(Clone, Copy)]
struct Run {
    digest: u64,
    tail: u64,
    posted: u64,
    tag: u64,
}

fn mixed(digest: u64, x: u64) -> u64 {
    (digest % 4294967296 * 31 + x % 4294967296) % 4294967296
}

fn of_started(answer: Result<Started, Refusal>) -> u64 {
    match answer {
        Ok(
            Started::One {
                sq,
                tag,
                slot,
                verdict,
                number,
            },
        ) => 65536 * (verdict as u64) + 1024 * (slot as u64) + 16 * (tag as u64) + (sq as u64),
        Ok(
            Started::Pair {
                sq,
                first,
                second,
                slot,
                verdict,
                number,
            },
        ) => {
            65536 * (verdict as u64)
                + 1024 * (slot as u64)
                + 16 * (first as u64)
                + (second as u64)
                + (sq as u64)
        }
        Err(refusal) => refusal.number(),
    }
}

fn of_finished(answer: Result<Finished, Refusal>) -> u64 {
    match answer {
        Ok(finished) => finished.slot as u64,
        Err(refusal) => refusal.number(),
    }
}

// The entry in a slot: a read, or in turn the two halves of a pair.
fn entry_of(slot: u64, pairs: bool) -> Submission {
    let mut opc: u8 = 2;
    let mut fuse: u64 = 0;
    if pairs {
        opc = if slot % 2 == 0 { 5 } else { 1 };
        fuse = 1 + slot % 2;
    }
    Submission {
        opc,
        fuse,
        psdt: 0,
        cid: (slot % 65536) as u16,
        nsid: 1,
        mptr: 0,
        prp1: 4096,
        prp2: 0,
        slba: slot / 2,
        nlb: 7,
        cdw12_upper: 0,
        cdw13: 0,
        cdw14: 0,
        cdw15: 0,
    }
}

fn fill(memory: &mut [u8], id: u64, pairs: bool)
    requires { (id < 16) × (131072 ≤ length memory.old) }
{
    for slot in 0..SIZE {
        let at = (4096 * id + 64 * slot) as usize;
        let _ = entry::submission::write(&mut memory[at..], entry_of(slot, pairs));
    }
}

fn create_queues(state: &mut [u64; WORDS], memory: &mut [u8], pairs: bool)
    requires { Reached state.old × (131072 ≤ length memory.old) }
    ensures { Reached state.new }
{
    for id in 0..QUEUES {
        fill(memory, id, pairs);
        let _ = create_cq(state, memory, id, SIZE, 4096 * (QUEUES + id));
        let _ = create_sq(state, memory, id, SIZE, 4096 * id, id, id % 4);
    }
}

// The first of the busy queues: queue 0 only where more than one is busy.
fn first_of(busy: u64) -> u64
    ensures { result ≤ 1 }
{
    if busy == 1 { 1 } else { 0 }
}

// A place of a ring, moved on by `n`.
fn moved(place: u64, n: u64) -> u64 {
    (place % SIZE + n % SIZE) % SIZE
}

// `n` tail writes on a copy of a controller whose queues are new: each moves its tail on by one, and is accepted. Before them goes a 1
// into the digest, which then tells how many answers of 0 came.
fn tails(state: &[u64; WORDS], run: Run, n: u64) -> Run
    requires { Reached state.now }
{
    let mut copy = *state;
    let mut digest = mixed(run.digest, 1);
    for i in 0..n {
        digest = mixed(
            digest,
            code(tail_write(&mut copy, i % QUEUES, i / QUEUES + 1)),
        );
    }
    Run { digest, ..run }
}

// `n` head writes of the value that each new queue holds: each is refused. The digest as in `tails`.
fn held(state: &mut [u64; WORDS], run: Run, n: u64) -> Run
    requires { Reached state.old }
    ensures { Reached state.new }
{
    let mut digest = mixed(run.digest, 1);
    for i in 0..n {
        digest = mixed(digest, code(head_write(state, i % QUEUES, 0)));
    }
    Run { digest, ..run }
}

// A value is written to a doorbell of a queue.
fn write(state: &mut [u64; WORDS], doorbell: Doorbell, id: u64, value: u64) -> u64
    requires { Reached state.old }
    ensures { Reached state.new }
{
    match doorbell {
        Doorbell::Tail => code(tail_write(state, id, value)),
        Doorbell::Head => code(head_write(state, id, value)),
    }
}

// The same of each busy queue.
fn write_each(
    state: &mut [u64; WORDS],
    digest: u64,
    doorbell: Doorbell,
    busy: u64,
    value: u64,
) -> u64
    requires { Reached state.old × (busy ≤ 16) }
    ensures { Reached state.new }
{
    let first = first_of(busy);
    let mut digest = digest;
    for id in first..first + busy {
        digest = mixed(digest, write(state, doorbell, id, value));
    }
    digest
}

// `n` commands more are submitted to each busy queue.
fn submit(state: &mut [u64; WORDS], run: Run, busy: u64, n: u64) -> Run
    requires { Reached state.old × (busy ≤ 16) }
    ensures { Reached state.new }
{
    let tail = moved(run.tail, n);
    let digest = write_each(state, run.digest, Doorbell::Tail, busy, tail);
    Run {
        digest,
        tail,
        ..run
    }
}

// `n` completions are released from the completion queue of each busy queue.
fn release(state: &mut [u64; WORDS], run: Run, busy: u64, n: u64) -> Run
    requires { Reached state.old × (busy ≤ 16) }
    ensures { Reached state.new }
{
    let posted = moved(run.posted, n);
    let digest = write_each(state, run.digest, Doorbell::Head, busy, posted);
    Run {
        digest,
        posted,
        ..run
    }
}

fn next_tag(tag: u64, last: u64) -> u64 {
    if last <= tag { 0 } else { tag + 1 }
}

// `n` starts, each with so many finishes of the tags that have been outstanding longest.
fn start_and_finish(
    state: &mut [u64; WORDS],
    run: Run,
    memory: &mut [u8],
    n: u64,
    finishes: u64,
    last_tag: u64,
) -> Run
    requires { Reached state.old × (finishes ≤ 2) }
    ensures { Reached state.new }
{
    let mut digest = run.digest;
    let mut tag = run.tag;
    for i in 0..n {
        digest = mixed(digest, of_started(start(state, memory)));
        for _ in 0..finishes {
            let finished = finish(state, memory, tag, 0, (i % 4294967296) as u32);
            digest = mixed(digest, of_finished(finished));
            tag = next_tag(tag, last_tag);
        }
    }
    Run { digest, tag, ..run }
}

// The candidates of a choice: one of queues 1 to 15 after another, always queue 1, or all queues, without queue 0 if fewer are busy.
fn mask_of(p: Plan, place: usize) -> u16 {
    match p.kind {
        Kind::Nearest => 2u16 << (place % OTHERS),
        Kind::Farthest => 2,
        _ if p.busy < QUEUES => 65534,
        _ => 65535,
    }
}

fn masks_of(p: Plan) -> [u16; OTHERS] {
    let mut masks = [0u16; OTHERS];
    for i in 0..OTHERS {
        masks[i] = mask_of(p, i);
    }
    masks
}

fn next_place(place: usize) -> usize
    ensures { result < 15 }
{
    if place < OTHERS - 1 { place + 1 } else { 0 }
}

// A batch of choices of a fresh arbiter; under mechanism 1 all queues are of low priority. The digest as in `tails`.
fn choices(run: Run, p: Plan) -> Run {
    let masks = masks_of(p);
    let mut arbiter = Arbiter::new(p.mechanism == 1, TURNS);
    let mut digest = mixed(run.digest, 1);
    let mut place: usize = 0;
    for _ in 0..CHOICES {
        let mask = masks[place];
        let found = Candidates {
            all: mask,
            urgent: 0,
            high: 0,
            medium: 0,
            low: mask,
        };
        let Some((id, left)) = arbiter.choose(found) else {
            return run;
        };
        arbiter = left;
        digest = mixed(digest, id as u64);
        place = next_place(place);
    }
    Run { digest, ..run }
}

// The loop without calls.
fn idle(run: Run, n: u64) -> Run {
    let mut digest = run.digest;
    for i in 0..n {
        digest = mixed(mixed(digest, i), i);
    }
    Run { digest, ..run }
}

// A batch of commands: submitted, started and finished, and its completions released.
fn round(
    state: &mut [u64; WORDS],
    run: Run,
    memory: &mut [u8],
    busy: u64,
    starts: u64,
    finishes: u64,
    last_tag: u64,
) -> Run
    requires { Reached state.old × (busy ≤ 16) × (finishes ≤ 2) }
    ensures { Reached state.new }
{
    let submitted = submit(state, run, busy, SUBMITTED);
    let done = start_and_finish(state, submitted, memory, starts, finishes, last_tag);
    release(state, done, busy, SUBMITTED)
}

fn batch(state: &mut [u64; WORDS], run: Run, memory: &mut [u8; MEMORY_BYTES], p: Plan) -> Run
    requires { Reached state.old × (p.busy ≤ 16) × (p.outstanding ≤ 63) }
    ensures { Reached state.new }
{
    let n = SUBMITTED * p.busy;
    match p.kind {
        Kind::Idle => idle(run, n),
        Kind::Tails => tails(state, run, n),
        Kind::Commands => round(state, run, memory, p.busy, n, 1, p.outstanding),
        Kind::Pairs => round(state, run, memory, p.busy, n / 2, 2, p.outstanding + 1),
        Kind::Held => held(state, run, n),
        Kind::Nearest | Kind::Farthest | Kind::Busy => choices(run, p),
    }
}

// 16 queues of each kind, and the commands that stay outstanding.
fn prepare(state: &mut [u64; WORDS], memory: &mut [u8; MEMORY_BYTES], p: Plan) -> Run
    requires { Reached state.old }
    ensures { Reached state.new }
{
    create_queues(state, memory, p.kind == Kind::Pairs);
    let run = Run {
        digest: 0,
        tail: 0,
        posted: 0,
        tag: 0,
    };
    if p.outstanding == 0 {
        return run;
    }
    let submitted = submit(state, run, 1, p.outstanding);
    start_and_finish(state, submitted, memory, p.outstanding, 0, 0)
}

// The digest of all answers.
fn digest_of(p: Plan) -> u64
    requires { (p.busy ≤ 16) × (p.outstanding ≤ 63) }
{
    let mut memory = [0u8; MEMORY_BYTES];
    let mut words = [0u64; WORDS];
    let _ = reset(&mut words, p.mechanism, WORD);
    let mut run = prepare(&mut words, &mut memory, p);
    for _ in 0..p.batches {
        run = batch(&mut words, run, &mut memory, p);
    }
    run.digest
}

// The number that a word of the line writes, and 0 for one above `most` or any other word.
fn number(line: &[u8], word: Word, most: u64) -> u64
    requires { (word.start ≤ word.end) × (word.end ≤ length line.now) }
    ensures { result ≤ most }
{
    match value_of(&line[word.start..word.end]) {
        Some(n) if n <= most => n,
        _ => 0,
    }
}

fn plan_of(line: &[u8]) -> Plan
    ensures { (result.busy ≤ 16) × (result.outstanding ≤ 63) }
{
    let kind = next_word(line, 0);
    let mechanism = next_word(line, kind.end);
    let busy = next_word(line, mechanism.end);
    let outstanding = next_word(line, busy.end);
    let batches = next_word(line, outstanding.end);
    Plan {
        kind: Kind::from(number(line, kind, u64::MAX)),
        mechanism: number(line, mechanism, 1),
        busy: number(line, busy, QUEUES),
        outstanding: number(line, outstanding, 63),
        batches: number(line, batches, u64::MAX),
    }
}

// The digest for a plan on a line, which may end in LF.
fn digest_for(input: &[u8]) -> u64 {
    let line = match input {
        [line @ .., b'\n'] => line,
        _ => input,
    };
    digest_of(plan_of(line))
}

fn main(rt: HostRuntime) -> io::Result<()> {
    let mut input = [0u8; INPUT_BYTES];
    let n = rt.stdin().read(&mut input)?;
    print!(rt; "{}", digest_for(&input[..n]))
}
