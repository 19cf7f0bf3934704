// A page's shape: its header, where its separators stand, and the refusals 1 to 7. A page of 4,096
// bytes holds:
//     OFFSET       SIZE    WHAT
//          0          4    page number
//          4          2    n, the count of entries
//          6          2    m, how many of them leave out the prefix
//          8          2    q, the prefix's length in bits
//         10         2n    where each separator ends, in bits from the prefix's end
//    10 + 2n         ..    q bits of prefix, the separators with no gap, and ignored bits
//  4096 - 4n         4n    the pointers
// Numbers are little-endian, bits most significant first. Any bytes may come: nothing is read
// outside the page, and no key is read.
// What a page means: format's specs/Page.antt. What the answers mean: specs/Shape.antt.
#![tactic(auto)]

ghost use Rattle.std.specs.Prelude.{◌≡◌, cond, ◌||◌, ◌<◌, ◌≤◌, eqb, leb, ltb};
ghost use Rattle.format.specs.Page.{body_bytes, end_of, start_of};
ghost use Rattle.shape.specs.Shape.{Shaping, SizesFit, Sizing, check_shape, checked_answer};

use format::layout;
use format::refusal::Refusal;
use std::fmt;

// What a page's header says, and how many bits prefix and separators have.
#[derive(Clone, Copy, Debug, PartialEq, Eq)]
pub struct Header {
    pub number: u64,
    pub n: usize,
    pub m: usize,
    pub q: usize,
    pub bits: usize,
}

impl fmt::Display for Header {
    fn fmt<W: fmt::Write>(&self, f: &mut fmt::Formatter<W>) -> fmt::Result {
        write!(
            f,
            "number {}, n {}, m {}, q {}, bits {}",
            self.number, self.n, self.m, self.q, self.bits
        )
    }
}

// Where separator i ends, in bits from the prefix's end; 0 where the page has no such bytes.
pub fn cell(page: &[u8], i: usize) -> usize
    ensures answer { (result ≡ end_of page.now i) × (result < 65536) }
{
    if page.len() / 2 < i {
        return 0;
    }
    numbers::le_u16(page, layout::HEADER_SIZE + 2 * i)
}

// Where separator i starts.
pub fn start_offset(page: &[u8], i: usize) -> usize
    ensures answer { (result ≡ start_of page.now i) × (result < 65536) }
{
    if i == 0 { 0 } else { cell(page, i - 1) }
}

// How many bits of entry i are the prefix's.
pub fn prefix_bits(h: Header, i: usize) -> usize
    ensures answer { (result ≡ cond (ltb i h.m) h.q 0) × (result ≤ h.q) }
{
    if i < h.m { h.q } else { 0 }
}

// Whether an entry of so many bits has none, or more than a key, or one before it had.
fn misfits(bits: usize, found: bool) -> bool
    ensures answer { result ≡ (eqb bits 0 || ltb 256 bits) || found }
{
    bits == 0 || 256 < bits || found
}

// Refusals 6 and 7, or the header. An end offset that falls comes first, so that the pass goes on
// where an entry does not fit.
fn fitted(page: &[u8], h: Header) -> Result<Header, Refusal>
    requires { SizesFit page.now h }
    ensures answer { Shaping page.now result }
{
    let mut before = 0;
    let mut found = false;
    for i in 0..h.n {
        let end = cell(page, i);
        if end < before {
            return Err(Refusal::OffsetsFall);
        }
        found = misfits(prefix_bits(h, i) + (end - before), found);
        before = end;
    }
    if found {
        return Err(Refusal::EntryBits);
    }
    Ok(h)
}

// Whether the body of n entries, with q bits of prefix and `sum` bits of separators, fits a page.
pub fn body_fits(n: usize, q: usize, sum: usize) -> bool
    ensures answer { result ≡ leb (body_bytes n q sum) 4086 }
{
    if layout::MOST_ENTRIES < n {
        return false;
    }
    6 * n + numbers::bytes_for(q, sum) <= layout::BODY_SIZE
}

// Refusals 1 to 5, or the header.
fn sized(page: &[u8]) -> Result<Header, Refusal>
    ensures answer { Sizing page.now result }
{
    if page.len() != layout::PAGE_SIZE {
        return Err(Refusal::PageLength);
    }
    let n = numbers::le_u16(page, 4);
    if n == 0 {
        return Err(Refusal::NoEntries);
    }
    let m = numbers::le_u16(page, 6);
    if m == 0 {
        return Err(Refusal::CompressedCount);
    }
    if n < m {
        return Err(Refusal::CompressedCount);
    }
    let q = numbers::le_u16(page, 8);
    if 256 < q {
        return Err(Refusal::PrefixLength);
    }
    let end = cell(page, n - 1);
    if !body_fits(n, q, end) {
        return Err(Refusal::BodyTooLong);
    }
    let bits = q + end;
    let number = numbers::le_u32(page, 0);
    Ok(Header {
        number,
        n,
        m,
        q,
        bits,
    })
}

// A check of a page but for the order of its keys: the header, or the first of 1 to 7 that holds.
pub fn shaped(page: &[u8]) -> Result<Header, Refusal>
    ensures answer { checked_answer result ≡ check_shape page.now }
    ensures told { Shaping page.now result }
{
    let h = sized(page)?;
    fitted(page, h)
}
