// Little-endian fields of a byte slice: the leaves that the entries and the page walk are written with. Each asks for the
// room of its field, which every caller shows.
#![tactic(auto)]

ghost use Rattle.std.specs.Prelude.{◌≡◌, ◌+◌, ◌≤◌, ◌<◌, ◌^◌, length};
ghost use Rattle.std.proofs.lemmas.List.Edits.{sets};
ghost use Rattle.le.specs.Le.{le, le_at};

// The number of the N bytes at `at`.
pub fn get<const N: usize>(b: &[u8], at: usize) -> u64
    requires width { N ≤ 8 }
    requires room { at + N ≤ length b.now }
    ensures { (result ≡ le_at N b.now at) × (result < 256 ^ N) }
{
    let mut bytes = [0; 8];
    bytes[..N].copy_from_slice(&b[at..at + N]);
    u64::from_le_bytes(bytes)
}

// Stores the N low bytes of `x` at `at`.
pub fn put<const N: usize>(b: &mut [u8], at: usize, x: u64)
    requires width { N ≤ 8 }
    requires room { at + N ≤ length b.old }
    ensures { b.new ≡ sets b.old at (le N x) }
{
    let bytes = x.to_le_bytes();
    b[at..at + N].copy_from_slice(&bytes[..N]);
}
