// The page writer. A page holds, byte by byte:
//
//     header      page number, n, m, q                              10 bytes
//     offsets     where each separator ends                         2n bytes
//     bits        the prefix, the separators, zeros                 4086 - 6n bytes
//     pointers                                                      4n bytes
//
// The rows of a table go in under a choice of m and q; the offsets, the bits and the pointers are
// lent on as parts of the page. What is written: `page_under` of format's specs/Normal.antt,
// specs/Writes.antt and, with the help of a base page, specs/Over.antt.
ghost use Rattle.std.specs.Prelude.{◌≡◌, ◌+◌, ◌*◌, ◌≤◌, ◌<◌, length, drop};
ghost use Rattle.std.proofs.Math.Seq.{paste};
ghost use Rattle.format.specs.Bits.{bits_of, pack};
ghost use Rattle.format.specs.Normal.{sum, page_under};
ghost use Rattle.rows.specs.Rows.{rows, row_key};
ghost use Rattle.parts.specs.Parts.{left_out, row_lengths};
ghost use Rattle.builder.specs.Writes.{row_bits, laid_out, Wrote};
ghost use Rattle.builder.specs.Over.{over_bits, page_over};
ghost use Rattle.builder.specs.Passed.{bits_over, row_len, run_len, run_start, PushedOver};

use crate::fitting::Rows;
use crate::kept::Base;
use format::layout;
use parts::{bits, fields};
use rows::table;
use rows::table::Row;

// How far the bits of a page are written: n entries, and the end of the last one's separator in
// bits from the prefix's end.
#[derive(Clone, Copy, Debug, PartialEq, Eq)]
pub struct BranchNodeBuilder {
    pub n: usize,
    pub bit_offset: usize,
}

impl BranchNodeBuilder {
    pub const PAGE_SIZE: usize = layout::PAGE_SIZE;

    pub const HEADER_SIZE: usize = layout::HEADER_SIZE;

    pub const BODY_SIZE: usize = layout::BODY_SIZE;

    // No entry, and bit offset 0.
    pub fn new() -> Self
        ensures answer { (result.n ≡ 0) × (result.bit_offset ≡ 0) }
    {
        BranchNodeBuilder {
            n: 0,
            bit_offset: 0,
        }
    }

    // The next row's key goes into the bits: from q on below m, else from its start; up to its
    // separator length.
    fn push(self, part: &mut [u8], rows: &Rows) -> Self
        requires { (self.n < rows.now.n) × (length part.old ≤ 4096)
            × (rows.now.q + self.bit_offset + row_len rows.now self.n ≤ 8 * length part.old) }
        ensures answer { (result.n ≡ self.n + 1)
            × (result.bit_offset ≡ self.bit_offset + row_len rows.now self.n) }
        ensures written { bits_of part.new
            ≡ paste (bits_of part.old) (rows.now.q + self.bit_offset)
            (drop (left_out rows.now.m rows.now.q self.n) (row_key rows.now.table.now self.n))
            (row_len rows.now self.n) }
    {
        let k = table::key_of(rows.table, self.n);
        let skip = fields::left_out(self.n, rows.m, rows.q);
        let len = k.separator_len().saturating_sub(skip);
        bits::put_key(part, rows.q + self.bit_offset, k, skip, len);
        BranchNodeBuilder {
            n: self.n + 1,
            bit_offset: self.bit_offset + len,
        }
    }

    // The next k entries are the base's from j on: their bits move as one run.
    fn push_chunk(self, part: &mut [u8], base: &Base, rows: &Rows, j: usize, k: usize) -> Self
        requires part_len_bound { (length part.old ≤ 4096)
            × (j + k ≤ 681) × (self.n + k ≤ 681) }
        requires j_bound { (rows.now.q + self.bit_offset + run_len base.now j k ≤ 8 * length part.old)
            × (run_start base.now rows.now j + run_len base.now j k
            ≤ 8 * length base.now.page.now) }
        ensures answer { (result.n ≡ self.n + k)
            × (result.bit_offset ≡ self.bit_offset + run_len base.now j k) }
        ensures written { bits_of part.new
            ≡ paste (bits_of part.old) (rows.now.q + self.bit_offset)
            (drop (run_start base.now rows.now j) (bits_of base.now.page.now))
            (run_len base.now j k) }
    {
        let from = shape::start_offset(base.page, j);
        let len = shape::start_offset(base.page, j + k).saturating_sub(from);
        let at = base.body_start() + (rows.q + from);
        let _ = bit_copy::bitwise_memcpy(part, rows.q + self.bit_offset, base.page, at, len);
        BranchNodeBuilder {
            n: self.n + k,
            bit_offset: self.bit_offset + len,
        }
    }

    // The next rows: a run that the base has, or one row.
    fn push_next(self, part: &mut [u8], base: &Base, rows: &Rows) -> Self
        requires { (self.n < rows.now.n)
            × PushedOver base.now rows.now (length part.old) part.old self }
        ensures written { (self.n < result.n)
            × PushedOver base.now rows.now (length part.old) part.new result }
    {
        let i = self.n;
        if base.is_kept(rows, i) {
            let j = table::source_of(rows.table, i) as usize;
            let e = base.run_end(rows, i, j);
            return self.push_chunk(part, base, rows, j, e - i);
        }
        self.push(part, rows)
    }
}

// Writes the prefix, the separators and zeros.
fn put_bits(part: &mut [u8], base: &Base, rows: &Rows)
    requires { (length part.old ≤ 4096)
        × (rows.now.q + sum (row_lengths rows.now.n rows.now.table.now rows.now.m rows.now.q)
        ≤ 8 * length part.old) }
    ensures written { part.new
        ≡ pack (length part.old)
        (row_bits (bits_over base.now rows.now) rows.now.n rows.now.table.now rows.now.q) }
{
    bits::put_key(part, 0, table::key_of(rows.table, 0), 0, rows.q);
    let mut b = BranchNodeBuilder::new();
    while b.n < rows.n {
        b = b.push_next(part, base, rows);
    }
    bits::clear_from(part, rows.q + b.bit_offset);
}

// Writes the page of the rows.
fn put_page(out: &mut [u8], number: u32, base: &Base, rows: &Rows)
    requires { length out.old ≡ 4096 }
    ensures written { out.new
        ≡ laid_out number rows.now.table.now rows.now.n rows.now.m rows.now.q
        (bits_over base.now rows.now) }
{
    fields::put_header(out, number, rows.n, rows.m, rows.q);
    let a = BranchNodeBuilder::HEADER_SIZE + 2 * rows.n;
    let e = BranchNodeBuilder::PAGE_SIZE - 4 * rows.n;
    let offsets = &mut out[BranchNodeBuilder::HEADER_SIZE..a];
    fields::put_offsets(offsets, rows.table, rows.n, rows.m, rows.q);
    put_bits(&mut out[a..e], base, rows);
    fields::put_pointers(&mut out[e..], rows.table, rows.n);
}

// Writes the page where it can be written, with the base's help. The rows are put together in here,
// since a table that is passed in a struct has a length that the compiler no longer knows.
fn write_rows(
    out: &mut [u8],
    number: u32,
    base: &Base,
    t: &[Row],
    n: usize,
    m: usize,
    q: usize,
) -> bool
    ensures { Wrote out.old t.now n m q
        (laid_out number t.now n m q
        (over_bits base.now.page.now base.now.n base.now.m t.now m q))
        result out.new }
{
    if out.len() != BranchNodeBuilder::PAGE_SIZE {
        return false;
    }
    let Some(chosen) = Rows::fitting(t, n, m, q) else {
        return false;
    };
    put_page(out, number, base, &chosen);
    true
}

// Writes the page of the table's first n rows under the choice of m and q, whatever it held before,
// and answers true. Where the page has not 4,096 bytes, there is no row, q is over 256 or the body
// does not fit, the answer is false and the page is as it was.
pub fn write_page(out: &mut [u8], number: u32, t: &[Row], n: usize, m: usize, q: usize) -> bool
    ensures { Wrote out.old t.now n m q
        (page_under number (rows n t.now) m q) result out.new }
{
    write_rows(out, number, &Base::none(), t, n, m, q)
}

// The same with the help of a base page said to have bn entries, bm of them compressed by bq bits.
// Where bq is q, a row whose source is one of these, stored there in exactly max(length - q, 0)
// bits, has its bits from there, and rows side by side in both pages move as one run; any other row
// has its own bits. Answers and leaves the page as `write_page` does where the base is what it is
// said to be: `wrote_based` of proofs/BaseLaws.antt.
pub fn write_page_over(
    out: &mut [u8],
    number: u32,
    base: &[u8],
    bn: usize,
    bm: usize,
    bq: usize,
    t: &[Row],
    n: usize,
    m: usize,
    q: usize,
) -> bool
    ensures { Wrote out.old t.now n m q
        (page_over number base.now bn bm bq t.now n m q)
        result out.new }
{
    match Base::helping(base, bn, bm, bq, q) {
        Some(helping) => write_rows(out, number, &helping, t, n, m, q),
        None => write_page(out, number, t, n, m, q),
    }
}
