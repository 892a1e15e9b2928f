// What a C program calls, by the exports of `rig_c`. Here the calls on plain numbers and byte buffers. An answer of several numbers goes
// back in a struct, which has the refusal beside the values, as C reads it; beside a refusal every other number is 0.
#![tactic(auto)]

ghost use Rattle.std.specs.Prelude.{◌≡◌, length};
ghost use Rattle.le.specs.Memory.{put};
ghost use Rattle.entry.specs.Completion.{completion, write_refusal, written, completion_read};
ghost use Rattle.entry.specs.Submission.{submission_read};
ghost use Rattle.entry.specs.Submission as submission;
ghost use Rattle.ring.specs.Doorbell.{tail_check, head_check};
ghost use Rattle.ring.specs.Reader.{ring_read};
ghost use Rattle.prp.specs.Pages.{page_size, byte_counts};
ghost use Rattle.prp.specs.Walk.{page_walk};
ghost use Rattle.prp.specs.Answer.{answer, addresses_of, numbers};
ghost use Rattle.rig.specs.Answers.{submission_of, submission_numbers, completion_numbers, waiting_numbers, pages_numbers};

use entry::submission::Submission;
use rules::refusal::code;

pub mod state;

#[repr(C)]
#[derive(Clone, Copy)]
pub struct CompletionNumbers {
    pub refusal: u64,
    pub result: u32,
    pub sqhd: u16,
    pub sqid: u16,
    pub cid: u16,
    pub status: u16,
    pub phase: u32,
}

#[repr(C)]
#[derive(Clone, Copy)]
pub struct SubmissionNumbers {
    pub refusal: u64,
    pub fuse: u64,
    pub psdt: u64,
    pub mptr: u64,
    pub prp1: u64,
    pub prp2: u64,
    pub slba: u64,
    pub nsid: u32,
    pub cdw13: u32,
    pub cdw14: u32,
    pub cdw15: u32,
    pub cid: u16,
    pub nlb: u16,
    pub cdw12_upper: u16,
    pub opc: u16,
}

#[repr(C)]
#[derive(Clone, Copy)]
pub struct WaitingNumbers {
    pub refusal: u64,
    pub count: u64,
}

#[repr(C)]
#[derive(Clone, Copy)]
pub struct PagesNumbers {
    pub refusal: u64,
    pub pages: u64,
    pub reads: u64,
}

// Writes a submission entry into the first 64 bytes of `entry`.
pub fn bellrafter_submission_write(
    entry: &mut [u8],
    opc: u8,
    fuse: u64,
    psdt: u64,
    cid: u16,
    nsid: u32,
    mptr: u64,
    prp1: u64,
    prp2: u64,
    slba: u64,
    nlb: u16,
    cdw12_upper: u16,
    cdw13: u32,
    cdw14: u32,
    cdw15: u32,
) -> u64
    ensures value { result ≡ submission.write_refusal (length entry.old) }
    ensures after { entry.new ≡ submission.written entry.old
        (submission_of opc fuse psdt cid nsid mptr prp1 prp2 slba nlb cdw12_upper cdw13 cdw14 cdw15) }
{
    code(entry::submission::write(
        entry,
        Submission {
            opc,
            fuse,
            psdt,
            cid,
            nsid,
            mptr,
            prp1,
            prp2,
            slba,
            nlb,
            cdw12_upper,
            cdw13,
            cdw14,
            cdw15,
        },
    ))
}

// Reads the submission entry in the first 64 bytes of `entry`.
pub fn bellrafter_submission_read(entry: &[u8]) -> SubmissionNumbers
    ensures { result ≡ submission_numbers (submission_read entry.now) }
{
    match entry::submission::read(entry) {
        Ok(e) => SubmissionNumbers {
            refusal: 0,
            fuse: e.fuse,
            psdt: e.psdt,
            mptr: e.mptr,
            prp1: e.prp1,
            prp2: e.prp2,
            slba: e.slba,
            nsid: e.nsid,
            cdw13: e.cdw13,
            cdw14: e.cdw14,
            cdw15: e.cdw15,
            cid: e.cid,
            nlb: e.nlb,
            cdw12_upper: e.cdw12_upper,
            opc: e.opc as u16,
        },
        Err(refusal) => SubmissionNumbers {
            refusal: refusal.number(),
            fuse: 0,
            psdt: 0,
            mptr: 0,
            prp1: 0,
            prp2: 0,
            slba: 0,
            nsid: 0,
            cdw13: 0,
            cdw14: 0,
            cdw15: 0,
            cid: 0,
            nlb: 0,
            cdw12_upper: 0,
            opc: 0,
        },
    }
}

// Writes a completion entry into the first 16 bytes of `entry`.
pub fn bellrafter_completion_write(
    entry: &mut [u8],
    res: u32,
    sqhd: u16,
    sqid: u16,
    cid: u16,
    status: u64,
    phase: u64,
) -> u64
    ensures value { result ≡ write_refusal (length entry.old) status }
    ensures after { entry.new ≡ written entry.old (completion res sqhd sqid cid status) phase }
{
    code(entry::completion::write(entry, res, sqhd, sqid, cid, status, phase))
}

// Reads the completion entry in the first 16 bytes of `entry`.
pub fn bellrafter_completion_read(entry: &[u8]) -> CompletionNumbers
    ensures { result ≡ completion_numbers (completion_read entry.now) }
{
    match entry::completion::read(entry) {
        Ok((e, phase)) => CompletionNumbers {
            refusal: 0,
            result: e.result,
            sqhd: e.sqhd,
            sqid: e.sqid,
            cid: e.cid,
            status: e.status,
            phase: phase as u32,
        },
        Err(refusal) => CompletionNumbers {
            refusal: refusal.number(),
            result: 0,
            sqhd: 0,
            sqid: 0,
            cid: 0,
            status: 0,
            phase: 0,
        },
    }
}

// How many completions wait in a ring, for a reader that stands at `head` and expects `phase` there.
pub fn bellrafter_ring_read(ring: &[u8], size: u64, head: u64, phase: u64) -> WaitingNumbers
    ensures { result ≡ waiting_numbers (ring_read ring.now size head phase) }
{
    match ring::reader::read(ring, size, head, phase) {
        Ok(count) => WaitingNumbers { refusal: 0, count },
        Err(refusal) => WaitingNumbers {
            refusal: refusal.number(),
            count: 0,
        },
    }
}

// The check of a tail value for a submission queue.
pub fn bellrafter_tail_check(size: u64, head: u64, tail: u64, value: u64) -> u64
    ensures { result ≡ tail_check size head tail value }
{
    code(ring::doorbell::check_tail(size, head, tail, value))
}

// The check of a head value for a completion queue.
pub fn bellrafter_head_check(size: u64, head: u64, tail: u64, value: u64) -> u64
    ensures { result ≡ head_check size head tail value }
{
    code(ring::doorbell::check_head(size, head, tail, value))
}

// Walks the pages of `len` bytes at `prp1`, with the page size number `page`: 8 bytes of `addresses` and 4 of `counts` for each.
pub fn bellrafter_page_walk(
    memory: &[u8],
    prp1: u64,
    prp2: u64,
    len: u64,
    page: u64,
    addresses: &mut [u8],
    counts: &mut [u8],
) -> PagesNumbers
    ensures value { result ≡ pages_numbers (answer (page_walk memory.now prp1 prp2 len page (length addresses.old) (length counts.old))) }
    ensures addresses_after { addresses.new ≡ put addresses.old 0 (numbers 8 (addresses_of
        (page_walk memory.now prp1 prp2 len page (length addresses.old) (length counts.old)))) }
    ensures counts_after { counts.new ≡ put counts.old 0 (numbers 4 (byte_counts (page_size page) prp1 len result.pages)) }
{
    match prp::walk(memory, prp1, prp2, len, page, addresses, counts) {
        Ok(walked) => PagesNumbers {
            refusal: 0,
            pages: walked.pages,
            reads: walked.reads,
        },
        Err(refusal) => PagesNumbers {
            refusal: refusal.number(),
            pages: 0,
            reads: 0,
        },
    }
}
