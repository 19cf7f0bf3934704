// Rows that a base page has: where their bits stand there, and how far they stand side by side.
// Which rows: `kept` of specs/Over.antt.
ghost use Rattle.std.specs.Prelude.{◌≡◌, true, false, ◌+◌, ◌*◌, ◌≤◌, ◌<◌, length, MatchOption};
ghost use Rattle.rows.specs.Rows.{row_source};
ghost use Rattle.builder.specs.Over.{usable};

use crate::fitting::Rows;
use format::layout;
use rows::table;

// A base page said to have n entries, m of them compressed by as many bits as the page to be
// written has of prefix.
#[derive(Clone, Copy)]
pub(crate) struct Base<'a> {
    pub(crate) page: &'a [u8],
    pub(crate) n: usize,
    pub(crate) m: usize,
    pub(crate) ghost small: { length page.now ≤ 4096 },
    pub(crate) ghost few: { n ≤ 681 },
    pub(crate) ghost within: { m ≤ 681 },
}

impl<'a> Base<'a> {
    ghost use Rattle.builder.specs.Passed.{keeps, RunOf};

    // A base of no entries, which has no row.
    pub(crate) fn none() -> Self
        ensures answer { result.m ≡ 0 }
    {
        Base {
            page: &[],
            n: 0,
            m: 0,
        }
    }

    // The base where it can help: its prefix is as long, and it has no more bytes and entries than
    // a page.
    pub(crate) fn helping(page: &'a [u8], n: usize, m: usize, bq: usize, q: usize) -> Option<Self>
        ensures answer { MatchOption result (usable page.now n m bq q ≡ false)
            (λ base. (usable page.now n m bq q ≡ true) × (base.page.now ≡ page.now)
            × (base.n ≡ n) × (base.m ≡ m)) }
    {
        if bq != q
            || layout::PAGE_SIZE < page.len()
            || layout::MOST_ENTRIES < n
            || layout::MOST_ENTRIES < m
        {
            return None;
        }
        Some(Base { page, n, m })
    }

    // The base's first bit behind its offsets, where its prefix begins.
    pub(crate) fn body_start(&self) -> usize
        ensures answer { result ≡ 8 * (10 + 2 * self.now.n) }
    {
        8 * (layout::HEADER_SIZE + 2 * self.n)
    }

    // Whether the base has row i as the page is to have it.
    pub(crate) fn is_kept(&self, rows: &Rows, i: usize) -> bool
        ensures answer { result ≡ keeps self.now rows.now i }
    {
        if rows.m <= i {
            return false;
        }
        let s = table::source_of(rows.table, i);
        if self.m as u64 <= s {
            return false;
        }
        let j = s as usize;
        let k = table::key_of(rows.table, i);
        let end = shape::cell(self.page, j);
        end == shape::start_offset(self.page, j) + k.separator_len().saturating_sub(rows.q)
            && self.body_start() + (rows.q + end) <= 8 * self.page.len()
    }

    // The end of the run of kept rows from i on whose sources are j and on.
    pub(crate) fn run_end(&self, rows: &Rows, i: usize, j: usize) -> usize
        requires { (i < rows.now.n) × (j ≡ row_source rows.now.table.now i)
            × (keeps self.now rows.now i ≡ true) }
        ensures answer { RunOf self.now rows.now i j result × (i < result) }
    {
        for e in i + 1..rows.n {
            if table::source_of(rows.table, e) != (j + (e - i)) as u64 || !self.is_kept(rows, e) {
                return e;
            }
        }
        rows.n
    }
}
