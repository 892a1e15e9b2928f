// The PRP page walk: from PRP1, PRP2, a length and a page size number to the addresses and byte counts of the data pages.
#![tactic(auto)]

ghost use Rattle.std.specs.Prelude.{◌≡◌, ℕ, ◌+◌, ◌*◌, ◌%◌, ◌≤◌, ◌<◌, length, IfOk};
ghost use Rattle.std.proofs.lemmas.List.Edits.{sets};
ghost use Rattle.rules.specs.Rules.{first_match};
ghost use Rattle.le.specs.Memory.{put};
ghost use Rattle.rules.specs.Refusal.{code, by_number};
ghost use Rattle.prp.specs.Pages.{longest, most_pages, page_size, pages_touched, byte_counts};
ghost use Rattle.prp.specs.Walk.{in_memory, list, data_pages, before_walk, page_walk};
ghost use Rattle.prp.specs.Answer.{answer, counted, refusal_of, pages_of, reads_of, walk_refusal, walk_reads};
ghost use Rattle.prp.specs.Answer.{addresses_of, numbers, Found};

use rules::refusal::Refusal;

// The longest transfer, in bytes.
const MOST_BYTES: u64 = 1048576;

// The number of pages and the number of list entries read.
#[derive(Clone, Copy)]
pub struct Walked {
    pub pages: u64,
    pub reads: u64,
}

// A page size, by its number. What is made of it takes the number, so that the compiler sees a remainder and a quotient by a power of two.
#[derive(Clone, Copy)]
struct Page {
    number: u64,
    ghost small: { number ≤ 4 },
}

impl Page {
    // How many bytes a page has.
    fn size(self) -> u64
        ensures { (result ≡ page_size self.number) × ((4096 ≤ result) × (result ≤ 65536)) }
    {
        4096u64 << self.number
    }

    // How far an address lies behind the start of its page.
    fn offset(self, address: u64) -> u64
        ensures { (result ≡ address % page_size self.number) × (result < page_size self.number) }
    {
        address % self.size()
    }

    fn touched(self, prp1: u64, len: u64) -> u64
        requires { (0 < len) × (len ≤ longest) }
        ensures { (result ≡ pages_touched (page_size self.number) prp1 len) × ((0 < result) × (result ≤ most_pages)) }
    {
        (self.offset(prp1) + len - 1) / self.size() + 1
    }

    // How many entries of a list page stand from `at` on.
    fn entries_from(self, at: u64) -> u64
        requires { at % 8 ≡ 0 }
        ensures { at % page_size self.number + 8 * result ≡ page_size self.number }
    {
        (self.size() - self.offset(at)) / 8
    }
}

// The page size of a walk that may begin.
fn may_walk(
    prp1: u64,
    len: u64,
    page: u64,
    address_room: usize,
    count_room: usize,
) -> Result<Page, Refusal>
    ensures number { code result ≡ first_match (before_walk prp1 len page address_room count_room) }
    ensures page_value { IfOk result (λ p. p.number ≡ page) }
{
    if len < 1 || MOST_BYTES < len {
        return Err(Refusal::LengthOutOfRange);
    }
    if 4 < page {
        return Err(Refusal::PageSizeTooLarge);
    }
    let page = Page { number: page };
    if prp1 % 4 != 0 {
        return Err(Refusal::InvalidPrpOffset);
    }
    let count = page.touched(prp1, len) as usize;
    if address_room < 8 * count || count_room < 4 * count {
        return Err(Refusal::BufferTooShort);
    }
    Ok(page)
}

// Whether the 8 bytes at `at` lie wholly in memory.
fn in_memory(memory: &[u8], at: u64) -> bool
    ensures { result ≡ in_memory memory.now at }
{
    8 <= memory.len() && at <= (memory.len() - 8) as u64
}

// Reads the PRP list at `start`, of `count` pages after the first. A turn of the outer loop is a list page, a turn of the inner
// one an entry; `more` entries of the list page are to be read, of which the last is a pointer if more than one page is left.
fn list_pages(memory: &[u8], start: u64, count: u64, page: Page) -> Result<Walked, Refusal>
    requires { (0 < count) × ((count < most_pages) × (start % 8 ≡ 0)) }
    ensures { by_number result ≡ counted 1 0 (list (page_size page.number) memory.now count start) }
{
    let mut at = start;
    let mut left = count;
    let mut reads: u64 = 0;
    let walked;
    'pages: loop {
        let mut more = left.min(page.entries_from(at));
        'entries: loop {
            if !in_memory(memory, at) {
                walked = Err(Refusal::ListEntryOutsideMemory);
                break 'pages;
            }
            let entry = le::get::<8>(memory, at as usize);
            reads += 1;
            if page.offset(entry) != 0 {
                walked = Err(Refusal::InvalidPrpOffset);
                break 'pages;
            }
            if more == 1 {
                if left == 1 {
                    walked = Ok(Walked {
                        pages: count + 1,
                        reads,
                    });
                    break 'pages;
                }
                at = entry;
                break 'entries;
            }
            more -= 1;
            left -= 1;
            at += 8;
        }
    }
    walked
}

// Checks the addresses of `count` pages after PRP1.
fn data_pages(memory: &[u8], prp2: u64, count: u64, page: Page) -> Result<Walked, Refusal>
    requires { (0 < count) × (count ≤ most_pages) }
    ensures { (prp1 : ℕ) → by_number result ≡ answer (data_pages (page_size page.number) memory.now prp1 prp2 count) }
{
    if count == 1 {
        return Ok(Walked { pages: 1, reads: 0 });
    }
    if count == 2 {
        if page.offset(prp2) != 0 {
            return Err(Refusal::InvalidPrpOffset);
        }
        return Ok(Walked { pages: 2, reads: 0 });
    }
    if prp2 % 8 != 0 {
        return Err(Refusal::InvalidPrpOffset);
    }
    list_pages(memory, prp2, count - 1, page)
}

// Stores the addresses in the PRP list at `start`, of `count` pages, which is known to be good.
fn store_list(memory: &[u8], start: u64, count: u64, page: Page, addresses: &mut [u8])
    requires room { (0 < count) × ((count < most_pages) × ((start % 8 ≡ 0) × (8 * count + 8 ≤ length addresses.old))) }
    requires found { Found (list (page_size page.number) memory.now count start) }
    ensures { addresses.new ≡ sets addresses.old 8
        (numbers 8 (addresses_of (list (page_size page.number) memory.now count start))) }
{
    let mut at = start;
    let mut left = count;
    let mut to: usize = 8;
    loop {
        let mut more = left.min(page.entries_from(at));
        while more > 1 {
            le::put::<8>(addresses, to, le::get::<8>(memory, at as usize));
            more -= 1;
            left -= 1;
            at += 8;
            to += 8;
        }
        let entry = le::get::<8>(memory, at as usize);
        if left == 1 {
            le::put::<8>(addresses, to, entry);
            return;
        }
        at = entry;
    }
}

// Stores the addresses of `count` pages, which are known to be good.
fn store_addresses(
    memory: &[u8],
    prp1: u64,
    prp2: u64,
    count: u64,
    page: Page,
    addresses: &mut [u8],
)
    requires room { (0 < count) × ((count ≤ most_pages) × (8 * count ≤ length addresses.old)) }
    requires found { Found (data_pages (page_size page.number) memory.now prp1 prp2 count) }
    ensures { addresses.new ≡ put addresses.old 0
        (numbers 8 (addresses_of (data_pages (page_size page.number) memory.now prp1 prp2 count))) }
{
    le::put::<8>(addresses, 0, prp1);
    if count == 1 {
        return;
    }
    if count == 2 {
        le::put::<8>(addresses, 8, prp2);
        return;
    }
    store_list(memory, prp2, count - 1, page, addresses);
}

// Stores the byte counts of the pages touched: all but the last are full from where the data begin.
fn store_counts(prp1: u64, len: u64, count: u64, page: Page, counts: &mut [u8])
    requires some { (0 < len) × (0 < count) }
    requires count_value { (count ≡ pages_touched (page_size page.number) prp1 len) × (4 * count ≤ length counts.old) }
    ensures { counts.new ≡ put counts.old 0 (numbers 4 (byte_counts (page_size page.number) prp1 len count)) }
{
    let mut room = page.size() - page.offset(prp1);
    let mut left = len;
    let last = (count - 1) as usize;
    for i in 0..last {
        le::put::<4>(counts, 4 * i, room);
        left -= room;
        room = page.size();
    }
    le::put::<4>(counts, 4 * last, left);
}

// Walks the pages of `len` bytes at `prp1`, with the page size number `page`, and stores each page's address in 8 bytes
// and its byte count in 4.
pub fn walk(
    memory: &[u8],
    prp1: u64,
    prp2: u64,
    len: u64,
    page: u64,
    addresses: &mut [u8],
    counts: &mut [u8],
) -> Result<Walked, Refusal>
    ensures value { by_number result ≡ answer (page_walk memory.now prp1 prp2 len page (length addresses.old) (length counts.old)) }
    ensures addresses_after { addresses.new ≡ put addresses.old 0 (numbers 8 (addresses_of
        (page_walk memory.now prp1 prp2 len page (length addresses.old) (length counts.old)))) }
    ensures counts_after { counts.new ≡ put counts.old 0 (numbers 4 (byte_counts (page_size page) prp1 len (pages_of (by_number result)))) }
    ensures refusal { refusal_of (by_number result)
        ≡ walk_refusal memory.now prp1 prp2 len page (length addresses.old) (length counts.old) }
    ensures reads { reads_of (by_number result) ≡ walk_reads memory.now prp1 prp2 len page (length addresses.old) (length counts.old) }
{
    let page = may_walk(prp1, len, page, addresses.len(), counts.len())?;
    let count = page.touched(prp1, len);
    let walked = data_pages(memory, prp2, count, page)?;
    store_counts(prp1, len, count, page, counts);
    store_addresses(memory, prp1, prp2, count, page, addresses);
    Ok(walked)
}
