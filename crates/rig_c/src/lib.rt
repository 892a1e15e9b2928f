// What a C program links: include/bellrafter.h declares it. Each export is the call of `rig` of the same name, with its clauses.
#![tactic(auto)]

ghost use Rattle.std.specs.Prelude.{◌≡◌, length};
ghost use Rattle.le.specs.Memory.{put};
ghost use Rattle.entry.specs.Completion.{completion, write_refusal, written, completion_read};
ghost use Rattle.entry.specs.Submission.{submission_read};
ghost use Rattle.entry.specs.Submission as submission;
ghost use Rattle.ring.specs.Doorbell.{tail_check, head_check};
ghost use Rattle.ring.specs.Reader.{ring_read};
ghost use Rattle.prp.specs.Pages.{page_size, byte_counts};
ghost use Rattle.prp.specs.Walk.{page_walk};
ghost use Rattle.prp.specs.Answer.{answer, addresses_of, numbers};
ghost use Rattle.rig.specs.Answers.{submission_of, submission_numbers, completion_numbers, waiting_numbers, pages_numbers};

use rig::{CompletionNumbers, PagesNumbers, SubmissionNumbers, WaitingNumbers};

pub mod state;

// Writes a submission entry into the first 64 bytes of `entry`.
#[unsafe(no_mangle)]
pub extern "C" fn bellrafter_submission_write(
    entry: &mut [u8],
    opc: u8,
    fuse: u64,
    psdt: u64,
    cid: u16,
    nsid: u32,
    mptr: u64,
    prp1: u64,
    prp2: u64,
    slba: u64,
    nlb: u16,
    cdw12_upper: u16,
    cdw13: u32,
    cdw14: u32,
    cdw15: u32,
) -> u64
    ensures value { result ≡ submission.write_refusal (length entry.old) }
    ensures after { entry.new ≡ submission.written entry.old
        (submission_of opc fuse psdt cid nsid mptr prp1 prp2 slba nlb cdw12_upper cdw13 cdw14 cdw15) }
{
    rig::bellrafter_submission_write(
        entry,
        opc,
        fuse,
        psdt,
        cid,
        nsid,
        mptr,
        prp1,
        prp2,
        slba,
        nlb,
        cdw12_upper,
        cdw13,
        cdw14,
        cdw15,
    )
}

// Reads the submission entry in the first 64 bytes of `entry`.
#[unsafe(no_mangle)]
pub extern "C" fn bellrafter_submission_read(entry: &[u8]) -> SubmissionNumbers
    ensures { result ≡ submission_numbers (submission_read entry.now) }
{
    rig::bellrafter_submission_read(entry)
}

// Writes a completion entry into the first 16 bytes of `entry`.
#[unsafe(no_mangle)]
pub extern "C" fn bellrafter_completion_write(
    entry: &mut [u8],
    res: u32,
    sqhd: u16,
    sqid: u16,
    cid: u16,
    status: u64,
    phase: u64,
) -> u64
    ensures value { result ≡ write_refusal (length entry.old) status }
    ensures after { entry.new ≡ written entry.old (completion res sqhd sqid cid status) phase }
{
    rig::bellrafter_completion_write(entry, res, sqhd, sqid, cid, status, phase)
}

// Reads the completion entry in the first 16 bytes of `entry`.
#[unsafe(no_mangle)]
pub extern "C" fn bellrafter_completion_read(entry: &[u8]) -> CompletionNumbers
    ensures { result ≡ completion_numbers (completion_read entry.now) }
{
    rig::bellrafter_completion_read(entry)
}

// How many completions wait in a ring, for a reader that stands at `head` and expects `phase` there.
#[unsafe(no_mangle)]
pub extern "C" fn bellrafter_ring_read(
    ring: &[u8],
    size: u64,
    head: u64,
    phase: u64,
) -> WaitingNumbers
    ensures { result ≡ waiting_numbers (ring_read ring.now size head phase) }
{
    rig::bellrafter_ring_read(ring, size, head, phase)
}

// The check of a tail value for a submission queue.
#[unsafe(no_mangle)]
pub extern "C" fn bellrafter_tail_check(size: u64, head: u64, tail: u64, value: u64) -> u64
    ensures { result ≡ tail_check size head tail value }
{
    rig::bellrafter_tail_check(size, head, tail, value)
}

// The check of a head value for a completion queue.
#[unsafe(no_mangle)]
pub extern "C" fn bellrafter_head_check(size: u64, head: u64, tail: u64, value: u64) -> u64
    ensures { result ≡ head_check size head tail value }
{
    rig::bellrafter_head_check(size, head, tail, value)
}

// Walks the pages of `len` bytes at `prp1`, with the page size number `page`: 8 bytes of `addresses` and 4 of `counts` for each.
#[unsafe(no_mangle)]
pub extern "C" fn bellrafter_page_walk(
    memory: &[u8],
    prp1: u64,
    prp2: u64,
    len: u64,
    page: u64,
    addresses: &mut [u8],
    counts: &mut [u8],
) -> PagesNumbers
    ensures value { result ≡ pages_numbers (answer (page_walk memory.now prp1 prp2 len page (length addresses.old) (length counts.old))) }
    ensures addresses_after { addresses.new ≡ put addresses.old 0 (numbers 8 (addresses_of
        (page_walk memory.now prp1 prp2 len page (length addresses.old) (length counts.old)))) }
    ensures counts_after { counts.new ≡ put counts.old 0 (numbers 4 (byte_counts (page_size page) prp1 len result.pages)) }
{
    rig::bellrafter_page_walk(memory, prp1, prp2, len, page, addresses, counts)
}
