// The completion entry: 16 bytes.
ghost use Rattle.std.specs.Prelude.{◌≡◌, ◌≤◌, length};
ghost use Rattle.le.specs.Memory.{put};
ghost use Rattle.entry.specs.Completion.{completion, completion_bytes, write_refusal, written};
ghost use Rattle.entry.specs.Completion.{completion_answer, read_refusal, completion_read};
ghost use Rattle.rules.specs.Refusal.{code, by_number};

use rules::refusal::Refusal;

// What a completion tells of its command. The phase tag beside it in an entry is the ring's.
#[derive(Clone, Copy)]
pub struct Completion {
    pub result: u32,
    pub sqhd: u16,
    pub sqid: u16,
    pub cid: u16,
    pub status: u16,
}

// Stores the 16 bytes of an entry.
fn store(buf: &mut [u8], e: Completion, phase: u64)
    requires { (16 ≤ length buf.old) × (e.status ≤ 32767) }
    ensures { buf.new ≡ put buf.old 0 (completion_bytes e phase) }
{
    le::put::<4>(buf, 0, e.result as u64);
    le::put::<4>(buf, 4, 0);
    le::put::<2>(buf, 8, e.sqhd as u64);
    le::put::<2>(buf, 10, e.sqid as u64);
    le::put::<2>(buf, 12, e.cid as u64);
    le::put::<2>(buf, 14, 2 * e.status as u64 + phase % 2);
}

// Writes an entry into the first 16 bytes of `buf`.
pub fn write(
    buf: &mut [u8],
    res: u32,
    sqhd: u16,
    sqid: u16,
    cid: u16,
    status: u64,
    phase: u64,
) -> Result<(), Refusal>
    ensures value { code result ≡ write_refusal (length buf.old) status }
    ensures buf_after { buf.new ≡ written buf.old (completion res sqhd sqid cid status) phase }
{
    if 32767 < status {
        return Err(Refusal::StatusTooLarge);
    }
    if buf.len() < 16 {
        return Err(Refusal::BufferTooShort);
    }
    let e = Completion {
        result: res,
        sqhd,
        sqid,
        cid,
        status: status as u16,
    };
    store(buf, e, phase);
    Ok(())
}

// Reads the entry in the first 16 bytes of `buf`, and its phase tag.
pub fn read(buf: &[u8]) -> Result<(Completion, u8), Refusal>
    ensures value { by_number result ≡ completion_read buf.now }
    ensures refusal { (completion_answer (by_number result)).0 ≡ read_refusal (length buf.now) }
{
    if buf.len() < 16 {
        return Err(Refusal::BufferTooShort);
    }
    let last = le::get::<2>(buf, 14);
    Ok((
        Completion {
            result: le::get::<4>(buf, 0) as u32,
            sqhd: le::get::<2>(buf, 8) as u16,
            sqid: le::get::<2>(buf, 10) as u16,
            cid: le::get::<2>(buf, 12) as u16,
            status: (last / 2) as u16,
        },
        (last % 2) as u8,
    ))
}
