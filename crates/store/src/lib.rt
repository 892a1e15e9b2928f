// A controller in WORDS numbers that the caller lends: one field after another, each for every queue or every tag. Where they stand
// is used in this crate alone; the calls use its getters and setters. These take ids, tags and words as they are, and each caller shows
// that they are low and sound: docs/MAP.md names them, so they may not take narrower types.
#![tactic(auto)]

ghost use Rattle.rules.specs.Refusal.{code};
ghost use Rattle.std.specs.Prelude.{ℕ, ◌≡◌, ◌+◌, ◌%◌, ◌≤◌, ◌<◌, set};
ghost use Rattle.std.specs.Int.{from_bool};
ghost use Rattle.controller.specs.Doorbell.{tail_moved, head_moved, mark};
ghost use Rattle.controller.specs.State.{outstanding, sq_at, cq_at, command_at, with_head, with_tail, sq_with_ring, with_sq, with_cq};
ghost use Rattle.controller.specs.State.{with_commands, with_next_number};
ghost use Rattle.controller.specs.State.{fresh_controller, new_refusal, new_controller};
ghost use Rattle.store.specs.Held.{ring_from, remainder_from, group_from, level_from, from, held, Sound, Holds};

use arbiter::{Arbiter, Group, Level, Remainder};
use controller::{Command, CompletionQueue, Ring, SubmissionQueue};
use rules::refusal::Refusal;

pub const WORDS: usize = 623;

// The first word of SQ 0 stands at 0, those of CQ 0 and of the command of tag 0 here; that of the next queue or tag one place on.
const CQ: usize = 128;

const COMMAND: usize = 224;

// How far from its first word a queue's field stands: MARKED, CQ_OF and CLASS in an SQ alone, PHASE in a CQ alone.
const BASE: usize = 0;

const SIZE: usize = 16;

const HEAD: usize = 32;

const TAIL: usize = 48;

const EXISTS: usize = 64;

const MARKED: usize = 80;

const CQ_OF: usize = 96;

const CLASS: usize = 112;

const PHASE: usize = 80;

// The same of a command's field.
const SQ: usize = 0;

const CID: usize = 64;

const VERDICT: usize = 128;

const FIRST: usize = 192;

const SECOND: usize = 256;

const NUMBER: usize = 320;

// Where the mask of free tags stands.
const FREE: usize = 608;

// Where the parts of the arbiter begin: a group is its holder and its remainder, a level a group and its credit.
const WEIGHTED: usize = 609;

const WORD: usize = 610;

const GROUP: usize = 611;

const HIGH: usize = 613;

const MEDIUM: usize = 616;

const LOW: usize = 619;

// Where the next start number stands.
const NEXT_NUMBER: usize = 622;

// What stands for a remainder without limit.
const NO_LIMIT: u64 = 4294967296;

// ---- numbers

// Kept apart: `as` keeps every bit, so what a field cuts off its word is said, by a number of its own for each width.
fn byte(x: u64) -> u8
    ensures { result ≡ x % 256 }
{
    (x % 256) as u8
}

fn half(x: u64) -> u16
    ensures { result ≡ x % 65536 }
{
    (x % 65536) as u16
}

fn dword(x: u64) -> u32
    ensures { result ≡ x % 4294967296 }
{
    (x % 4294967296) as u32
}

fn remainder_of(x: u64) -> Remainder
    ensures { result ≡ remainder_from x }
{
    if x < NO_LIMIT {
        Remainder::Left(x as u32)
    } else {
        Remainder::NoLimit
    }
}

fn word_of(r: Remainder) -> u64
    ensures { (remainder_from result ≡ r) × (result < 4294967297) }
{
    match r {
        Remainder::Left(n) => n as u64,
        Remainder::NoLimit => NO_LIMIT,
    }
}

// ---- queues

// The ring whose first word stands at `p`.
fn ring_at(s: &[u64; WORDS], p: usize) -> Ring
    requires { p < 144 }
    ensures { result ≡ ring_from (from s.now p) }
{
    Ring {
        base: s[p + BASE],
        size: half(s[p + SIZE]),
        head: half(s[p + HEAD]),
        tail: half(s[p + TAIL]),
        exists: s[p + EXISTS] != 0,
    }
}

fn put_ring(s: &mut [u64; WORDS], p: usize, r: Ring)
    requires { p < 144 }
    ensures { s.new ≡ set (set (set (set (set s.old (p + 0) r.base) (p + 16) r.size) (p + 32) r.head) (p + 48) r.tail)
        (p + 64) (from_bool r.exists) }
{
    s[p + BASE] = r.base;
    s[p + SIZE] = r.size as u64;
    s[p + HEAD] = r.head as u64;
    s[p + TAIL] = r.tail as u64;
    s[p + EXISTS] = r.exists as u64;
}

pub fn sq_at(s: &[u64; WORDS], i: usize) -> SubmissionQueue
    requires { i < 16 }
    ensures { result ≡ sq_at (held s.now) i }
{
    SubmissionQueue {
        ring: ring_at(s, i),
        marked: s[i + MARKED] != 0,
        cq: byte(s[i + CQ_OF]),
        class: byte(s[i + CLASS]),
    }
}

pub fn put_sq(s: &mut [u64; WORDS], i: usize, q: SubmissionQueue)
    requires { (i < 16) × Sound s.old }
    ensures { Holds s.new (with_sq (held s.old) i q) }
{
    put_ring(s, i, q.ring);
    s[i + MARKED] = q.marked as u64;
    s[i + CQ_OF] = q.cq as u64;
    s[i + CLASS] = q.class as u64;
}

pub fn put_sq_head(s: &mut [u64; WORDS], i: usize, v: u16)
    requires { (i < 16) × Sound s.old }
    ensures { let c = held s.old in
        Holds s.new (with_sq c i (sq_with_ring (sq_at c i) (with_head (sq_at c i).ring v))) }
{
    s[i + HEAD] = v as u64;
}

pub fn put_sq_tail(s: &mut [u64; WORDS], i: usize, v: u16)
    requires { (i < 16) × Sound s.old }
    ensures { let c = held s.old in Holds s.new (with_sq c i (tail_moved (sq_at c i) v)) }
{
    s[i + TAIL] = v as u64;
}

pub fn mark_sq(s: &mut [u64; WORDS], i: usize)
    requires { (i < 16) × Sound s.old }
    ensures { let c = held s.old in Holds s.new (with_sq c i (mark (sq_at c i))) }
{
    s[i + MARKED] = 1;
}

pub fn cq_at(s: &[u64; WORDS], i: usize) -> CompletionQueue
    requires { i < 16 }
    ensures { result ≡ cq_at (held s.now) i }
{
    CompletionQueue {
        ring: ring_at(s, i + CQ),
        phase: byte(s[i + CQ + PHASE]),
    }
}

pub fn put_cq(s: &mut [u64; WORDS], i: usize, q: CompletionQueue)
    requires { (i < 16) × Sound s.old }
    ensures { Holds s.new (with_cq (held s.old) i q) }
{
    put_ring(s, i + CQ, q.ring);
    s[i + CQ + PHASE] = q.phase as u64;
}

pub fn put_cq_head(s: &mut [u64; WORDS], i: usize, v: u16)
    requires { (i < 16) × Sound s.old }
    ensures { let c = held s.old in Holds s.new (with_cq c i (head_moved (cq_at c i) v)) }
{
    s[i + CQ + HEAD] = v as u64;
}

// The tail and the phase tag of a completion queue.
pub fn put_cq_tail(s: &mut [u64; WORDS], i: usize, v: u16, phase: u8)
    requires { (i < 16) × Sound s.old }
    ensures { let c = held s.old in
        Holds s.new (with_cq c i (record { ring = with_tail (cq_at c i).ring v; phase = phase })) }
{
    s[i + CQ + TAIL] = v as u64;
    s[i + CQ + PHASE] = phase as u64;
}

// ---- commands

pub fn command_at(s: &[u64; WORDS], t: usize) -> Command
    requires { t < 64 }
    ensures { result ≡ command_at (held s.now) t }
{
    Command {
        sq: byte(s[t + COMMAND + SQ]),
        cid: half(s[t + COMMAND + CID]),
        verdict: half(s[t + COMMAND + VERDICT]),
        first: byte(s[t + COMMAND + FIRST]),
        second: byte(s[t + COMMAND + SECOND]),
        number: s[t + COMMAND + NUMBER],
    }
}

pub fn put_command(s: &mut [u64; WORDS], t: usize, k: Command)
    requires { (t < 64) × Sound s.old }
    ensures { let c = held s.old in
        Holds s.new (with_commands c (set c.commands t k) c.free c.arbiter) }
{
    s[t + COMMAND + SQ] = k.sq as u64;
    s[t + COMMAND + CID] = k.cid as u64;
    s[t + COMMAND + VERDICT] = k.verdict as u64;
    s[t + COMMAND + FIRST] = k.first as u64;
    s[t + COMMAND + SECOND] = k.second as u64;
    s[t + COMMAND + NUMBER] = k.number;
}

// The mask of free tags.
pub fn free_of(s: &[u64; WORDS]) -> u64
    ensures { result ≡ (held s.now).free }
{
    s[FREE]
}

pub fn put_free(s: &mut [u64; WORDS], mask: u64)
    requires { Sound s.old }
    ensures { let c = held s.old in Holds s.new (with_commands c c.commands mask c.arbiter) }
{
    s[FREE] = mask;
}

// ---- the arbiter

fn group_at(s: &[u64; WORDS], p: usize) -> Group
    requires { p + 2 ≤ 623 }
    ensures { result ≡ group_from (from s.now p) 0 }
{
    Group {
        holder: dword(s[p]),
        remainder: remainder_of(s[p + 1]),
    }
}

fn level_at(s: &[u64; WORDS], p: usize) -> Level
    requires { p + 3 ≤ 623 }
    ensures { result ≡ level_from (from s.now p) 0 }
{
    Level {
        group: group_at(s, p),
        credit: dword(s[p + 2]),
    }
}

pub fn arbiter_of(s: &[u64; WORDS]) -> Arbiter
    ensures { result ≡ (held s.now).arbiter }
{
    Arbiter {
        weighted: s[WEIGHTED] != 0,
        word: dword(s[WORD]),
        group: group_at(s, GROUP),
        high: level_at(s, HIGH),
        medium: level_at(s, MEDIUM),
        low: level_at(s, LOW),
    }
}

fn put_group(s: &mut [u64; WORDS], p: usize, g: Group)
    requires { p + 2 ≤ 623 }
    ensures { (left : ℕ) × (remainder_from left ≡ g.remainder) × (left < 4294967297)
        × (s.new ≡ set (set s.old p g.holder) (p + 1) left) }
{
    s[p] = g.holder as u64;
    s[p + 1] = word_of(g.remainder);
}

fn put_level(s: &mut [u64; WORDS], p: usize, l: Level)
    requires { p + 3 ≤ 623 }
    ensures { (left : ℕ) × (remainder_from left ≡ l.group.remainder) × (left < 4294967297)
        × (s.new ≡ set (set (set s.old p l.group.holder) (p + 1) left) (p + 2) l.credit) }
{
    put_group(s, p, l.group);
    s[p + 2] = l.credit as u64;
}

pub fn put_arbiter(s: &mut [u64; WORDS], a: Arbiter)
    requires { Sound s.old }
    ensures { let c = held s.old in Holds s.new (with_commands c c.commands c.free a) }
{
    s[WEIGHTED] = a.weighted as u64;
    s[WORD] = a.word as u64;
    put_group(s, GROUP, a.group);
    put_level(s, HIGH, a.high);
    put_level(s, MEDIUM, a.medium);
    put_level(s, LOW, a.low);
}

// ---- start numbers

// The start number of the next command that is taken.
pub fn next_number(s: &[u64; WORDS]) -> u64
    ensures { result ≡ (held s.now).next_number }
{
    s[NEXT_NUMBER]
}

pub fn put_next_number(s: &mut [u64; WORDS], n: u64)
    requires { Sound s.old }
    ensures { Holds s.new (with_next_number (held s.old) n) }
{
    s[NEXT_NUMBER] = n;
}

// ---- a fresh controller

fn refresh(s: &mut [u64; WORDS], weighted: bool, word: u32)
    ensures { Holds s.new (fresh_controller weighted word) }
{
    *s = [0u64; WORDS];
    put_free(s, u64::MAX);
    put_arbiter(s, Arbiter::new(weighted, word));
}

// Makes any words those of a fresh controller of a mechanism, 0 round robin or 1 weighted with urgent, and the Arbitration feature
// word.
pub fn reset(s: &mut [u64; WORDS], mechanism: u64, word: u32) -> Result<(), Refusal>
    ensures { (code result ≡ new_refusal mechanism) × Holds s.new (new_controller mechanism word) }
{
    if 1 < mechanism {
        refresh(s, false, 0);
        return Err(Refusal::UnknownMechanism);
    }
    refresh(s, mechanism == 1, word);
    Ok(())
}

// Whether a tag's command is outstanding, for a tag of any size; bit t of `free` is set where tag t is free.
pub fn is_outstanding(free: u64, tag: u64) -> bool
    ensures { result ≡ outstanding free tag }
{
    tag <= Controller::LAST_TAG && !bits::is_free(free, tag)
}

// A controller: the words that its calls are lent.
#[derive(Clone, Copy)]
pub struct Controller {
    pub words: [u64; WORDS],
}

// A new controller, which is there beside a refusal too.
#[derive(Clone, Copy)]
pub struct Created {
    pub answer: Result<(), Refusal>,
    pub controller: Controller,
}

impl Controller {
    // The limits. There are as many submission queues as completion queues.
    pub const QUEUES: usize = 16;

    pub const LAST_QUEUE: u64 = 15;

    pub const TAGS: usize = 64;

    pub const LAST_TAG: u64 = 63;

    pub const LAST_CLASS: u64 = 3;

    pub const LAST_STATUS: u64 = 32767;

    pub const LAST_NUMBER: u64 = 18446744073709551614;

    pub const BASE_UNIT: u64 = 4096;

    pub const SUBMISSION_BYTES: u64 = 64;

    pub const COMPLETION_BYTES: u64 = 16;

    // The status codes.
    pub const INVALID_FIELD: u16 = 2;

    pub const COMMAND_ID_CONFLICT: u16 = 3;

    pub const FAILED_FUSED: u16 = 9;

    pub const MISSING_FUSED: u16 = 10;

    // A fresh controller of a mechanism and the Arbitration feature word.
    pub fn new(mechanism: u64, word: u32) -> Created
        ensures { (code result.answer ≡ new_refusal mechanism) × Holds result.controller.words (new_controller mechanism word) }
    {
        let mut words = [0u64; WORDS];
        let answer = reset(&mut words, mechanism, word);
        Created {
            answer,
            controller: Controller { words },
        }
    }
}
