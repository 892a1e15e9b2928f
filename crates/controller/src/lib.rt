// The parts of a controller's state, and the answers of a start and of a finish.
#![tactic(auto)]

// A ring of entries in memory; `exists` is false where there is none, and every number is then 0. No Option: demand 3 speaks of `exists`
// (specs Demand.There), and every law of queues.
#[derive(Clone, Copy)]
pub struct Ring {
    pub base: u64,
    pub size: u16,
    pub head: u16,
    pub tail: u16,
    pub exists: bool,
}

// `marked` is document 01's term: a tail value was refused with 10, and the queue takes no more tail writes and starts no more
// commands. `cq` is the completion queue that it posts to. `class` stays document 01's number: specs Valid.sq_class is about it.
#[derive(Clone, Copy)]
pub struct SubmissionQueue {
    pub ring: Ring,
    pub marked: bool,
    pub cq: u8,
    pub class: u8,
}

// `phase` is the phase tag of the next posting.
#[derive(Clone, Copy)]
pub struct CompletionQueue {
    pub ring: Ring,
    pub phase: u8,
}

// A command that was started. `verdict` is document 01's term: the status that the start has decided on and the finish posts, and 0
// where none is. `first` is its first half's tag plus 1 while that is outstanding, `second` its second half's tag plus 1; 0 is none.
// `number` is its start number: how many commands the controller had taken before it. The status and the tags stay numbers: the laws of
// commands (specs Valid.CommandOk, proofs Links) and the words that C lends have them so.
#[derive(Clone, Copy)]
pub struct Command {
    pub sq: u8,
    pub cid: u16,
    pub verdict: u16,
    pub first: u8,
    pub second: u8,
    pub number: u64,
}

// What a start takes: one command, or a pair. `number` is the start number of the first.
#[derive(Clone, Copy)]
pub enum Started {
    One {
        sq: u8,
        tag: u8,
        slot: u16,
        verdict: u16,
        number: u64,
    },
    Pair {
        sq: u8,
        first: u8,
        second: u8,
        slot: u16,
        verdict: u16,
        number: u64,
    },
}

// The slot that a finish posts to, and the start number of the command that it posts.
#[derive(Clone, Copy)]
pub struct Finished {
    pub slot: u16,
    pub number: u64,
}
