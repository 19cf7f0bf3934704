// The header, the end offsets and the pointers of a page, from the rows of a table under a choice
// of m and q, and how many bits it stores of them. A page has at most 681 rows.
ghost use Rattle.std.specs.Prelude.{◌≡◌, ◌-◌, ◌≤◌};
ghost use Rattle.format.specs.Key.{separator_length};
ghost use Rattle.rows.specs.Rows.{row_key};
ghost use Rattle.parts.specs.Parts.{left_out, stored_sum};
ghost use Rattle.parts.specs.Parts.{with_header, with_offsets, with_pointers};

use crate::little;
use format::layout;
use rows::table;
use rows::table::Row;

// How many bits of its key entry i leaves out.
pub fn left_out(i: usize, m: usize, q: usize) -> usize
    ensures answer { (result ≡ left_out m q i) × (result ≤ q) }
{
    if i < m { q } else { 0 }
}

// How many bits of row i's key are stored.
fn stored_len(t: &[Row], i: usize, m: usize, q: usize) -> usize
    ensures answer { (result ≡ separator_length (row_key t.now i) - left_out m q i)
        × (result ≤ 256) }
{
    let k = table::key_of(t, i);
    let len = k.separator_len();
    len.saturating_sub(left_out(i, m, q))
}

// How many bits of n keys are stored; 0 for more than 681.
pub fn stored_sum(t: &[Row], n: usize, m: usize, q: usize) -> usize
    ensures answer { (result ≡ stored_sum t.now n m q) × (result ≤ 174336) }
{
    if layout::MOST_ENTRIES < n {
        return 0;
    }
    let mut end = 0;
    for i in 0..n {
        end += stored_len(t, i, m, q);
    }
    end
}

// Writes the header, into the first ten bytes; nothing where there are fewer.
pub fn put_header(out: &mut [u8], number: u32, n: usize, m: usize, q: usize)
    ensures written { out.new ≡ with_header out.old number n m q }
{
    if out.len() < layout::HEADER_SIZE {
        return;
    }
    little::put::<4>(out, 0, u64::from(number));
    little::put::<2>(out, 4, n as u64);
    little::put::<2>(out, 6, m as u64);
    little::put::<2>(out, 8, q as u64);
}

// Writes the end offsets of n entries, counted from the prefix's end, into a part of 2n bytes;
// nothing where it is not so long or n is over 681.
pub fn put_offsets(part: &mut [u8], t: &[Row], n: usize, m: usize, q: usize)
    ensures written { part.new
        ≡ with_offsets part.old t.now n m q }
{
    if layout::MOST_ENTRIES < n {
        return;
    }
    if part.len() != 2 * n {
        return;
    }
    let mut end = 0;
    for i in 0..n {
        end += stored_len(t, i, m, q);
        little::put::<2>(part, 2 * i, end as u64);
    }
}

// Writes the pointers of n entries into a part of 4n bytes; nothing where it is not so long or n is
// over 681.
pub fn put_pointers(part: &mut [u8], t: &[Row], n: usize)
    ensures written { part.new
        ≡ with_pointers part.old t.now n }
{
    if layout::MOST_ENTRIES < n {
        return;
    }
    if part.len() != 4 * n {
        return;
    }
    for i in 0..n {
        little::put::<4>(part, 4 * i, table::pointer_of(t, i));
    }
}
