// The submission entry: 64 bytes.
ghost use Rattle.std.specs.Prelude.{◌≡◌, ◌++◌, ◌≤◌, length};
ghost use Rattle.std.proofs.lemmas.List.Edits.{sets};
ghost use Rattle.le.specs.Le.{le};
ghost use Rattle.le.specs.Memory.{put};
ghost use Rattle.entry.specs.Submission.{flags, submission_bytes, write_refusal, written, submission_answer, read_refusal, submission_read};
ghost use Rattle.rules.specs.Refusal.{code, by_number};

use rules::refusal::Refusal;

// The fields of an entry. `cdw12_upper` is the upper half of CDW12, bytes 50 to 51; NLB is the lower.
#[derive(Clone, Copy)]
pub struct Submission {
    pub opc: u8,
    pub fuse: u64,
    pub psdt: u64,
    pub cid: u16,
    pub nsid: u32,
    pub mptr: u64,
    pub prp1: u64,
    pub prp2: u64,
    pub slba: u64,
    pub nlb: u16,
    pub cdw12_upper: u16,
    pub cdw13: u32,
    pub cdw14: u32,
    pub cdw15: u32,
}

// Stores bytes 0 to 15: OPC, FUSE and PSDT, CID, NSID and zeros.
fn store_head(buf: &mut [u8], e: Submission)
    requires { 64 ≤ length buf.old }
    ensures { buf.new ≡ sets buf.old 0 (le 1 e.opc ++ le 1 (flags e) ++ le 2 e.cid ++ le 4 e.nsid ++ le 8 0) }
{
    le::put::<1>(buf, 0, e.opc as u64);
    le::put::<1>(buf, 1, e.fuse % 4 + 64 * (e.psdt % 4));
    le::put::<2>(buf, 2, e.cid as u64);
    le::put::<4>(buf, 4, e.nsid as u64);
    le::put::<8>(buf, 8, 0);
}

// Stores bytes 16 to 47: MPTR, PRP1, PRP2 and SLBA.
fn store_pointers(buf: &mut [u8], e: Submission)
    requires { 64 ≤ length buf.old }
    ensures { buf.new ≡ sets buf.old 16 (le 8 e.mptr ++ le 8 e.prp1 ++ le 8 e.prp2 ++ le 8 e.slba) }
{
    le::put::<8>(buf, 16, e.mptr);
    le::put::<8>(buf, 24, e.prp1);
    le::put::<8>(buf, 32, e.prp2);
    le::put::<8>(buf, 40, e.slba);
}

// Stores bytes 48 to 63: NLB and the rest of CDW12 to CDW15.
fn store_dwords(buf: &mut [u8], e: Submission)
    requires { 64 ≤ length buf.old }
    ensures { buf.new ≡ sets buf.old 48 (le 2 e.nlb ++ le 2 e.cdw12_upper ++ le 4 e.cdw13 ++ le 4 e.cdw14 ++ le 4 e.cdw15) }
{
    le::put::<2>(buf, 48, e.nlb as u64);
    le::put::<2>(buf, 50, e.cdw12_upper as u64);
    le::put::<4>(buf, 52, e.cdw13 as u64);
    le::put::<4>(buf, 56, e.cdw14 as u64);
    le::put::<4>(buf, 60, e.cdw15 as u64);
}

// Stores the 64 bytes of an entry.
fn store(buf: &mut [u8], e: Submission)
    requires { 64 ≤ length buf.old }
    ensures { buf.new ≡ put buf.old 0 (submission_bytes e) }
{
    store_head(buf, e);
    store_pointers(buf, e);
    store_dwords(buf, e);
}

// Writes an entry into the first 64 bytes of `buf`.
pub fn write(buf: &mut [u8], e: Submission) -> Result<(), Refusal>
    ensures value { code result ≡ write_refusal (length buf.old) }
    ensures buf_after { buf.new ≡ written buf.old e }
{
    if buf.len() < 64 {
        return Err(Refusal::BufferTooShort);
    }
    store(buf, e);
    Ok(())
}

// Reads the entry in the first 64 bytes of `buf`.
pub fn read(buf: &[u8]) -> Result<Submission, Refusal>
    ensures value { by_number result ≡ submission_read buf.now }
    ensures refusal { (submission_answer (by_number result)).0 ≡ read_refusal (length buf.now) }
{
    if buf.len() < 64 {
        return Err(Refusal::BufferTooShort);
    }
    let flags = le::get::<1>(buf, 1);
    Ok(Submission {
        opc: le::get::<1>(buf, 0) as u8,
        fuse: flags % 4,
        psdt: flags / 64,
        cid: le::get::<2>(buf, 2) as u16,
        nsid: le::get::<4>(buf, 4) as u32,
        mptr: le::get::<8>(buf, 16),
        prp1: le::get::<8>(buf, 24),
        prp2: le::get::<8>(buf, 32),
        slba: le::get::<8>(buf, 40),
        nlb: le::get::<2>(buf, 48) as u16,
        cdw12_upper: le::get::<2>(buf, 50) as u16,
        cdw13: le::get::<4>(buf, 52) as u32,
        cdw14: le::get::<4>(buf, 56) as u32,
        cdw15: le::get::<4>(buf, 60) as u32,
    })
}
