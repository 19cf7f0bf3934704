// Rows that a page can hold. Which rows: `fitting` of specs/Writes.antt.
ghost use Rattle.std.specs.Prelude.{◌≡◌, true, false, ◌≤◌, ◌<◌, MatchOption};
ghost use Rattle.format.specs.Page.{body_bytes};
ghost use Rattle.format.specs.Normal.{sum};
ghost use Rattle.parts.specs.Parts.{row_lengths};
ghost use Rattle.builder.specs.Writes.{fitting};

use parts::fields;
use rows::table::Row;

// The first n rows of a table, under a choice of m and q that fits a page.
#[derive(Clone, Copy)]
pub(crate) struct Rows<'a> {
    pub(crate) table: &'a [Row],
    pub(crate) n: usize,
    pub(crate) m: usize,
    pub(crate) q: usize,
    pub(crate) ghost some: { 0 < n },
    pub(crate) ghost few: { n ≤ 681 },
    pub(crate) ghost short: { q ≤ 256 },
    pub(crate) ghost fits: { body_bytes n q (sum (row_lengths n table.now m q)) ≤ 4086 },
}

impl<'a> Rows<'a> {
    // The rows; none where there is no row, q is over 256 or the body does not fit.
    pub(crate) fn fitting(table: &'a [Row], n: usize, m: usize, q: usize) -> Option<Self>
        ensures answer { MatchOption result (fitting table.now n m q ≡ false)
            (λ rows. (fitting table.now n m q ≡ true) × (rows.table.now ≡ table.now)
            × (rows.n ≡ n) × (rows.m ≡ m) × (rows.q ≡ q)) }
    {
        if n < 1 || 256 < q {
            return None;
        }
        let sum = fields::stored_sum(table, n, m, q);
        if !shape::body_fits(n, q, sum) {
            return None;
        }
        Some(Rows { table, n, m, q })
    }
}
