// Build: a base page and an edit record make a new page, and the record that brings the base back.
// Document 01, "Undo record" (its end), and the refusals 1 to 15. What it means: `build` of format's
// specs/Build.antt. What the answers mean: specs/Built.antt.
// A build takes some 90 KB of stack, two tables of 682 rows and the undo record, and no heap.
#![tactic(auto)]

ghost use Rattle.std.specs.Prelude.{◌≡◌, ◌<◌, ◌++◌, length, drop, take};
ghost use Rattle.format.specs.Normal.{normal_page};
ghost use Rattle.format.specs.Build.{build};
ghost use Rattle.rows.specs.Rows.{rows};
ghost use Rattle.build.specs.Built.{built_answer, BaseKnown, Old, Planning, Ready};

use branch_ops::choice;
use builder::page;
use builder::page::BranchNodeBuilder;
use format::refusal::Refusal;
use node::reader;
use rows::table::Row;
use shape::Header;

// What an accepted build answers: n, m, q and bits of the new page, and the undo record's length.
#[derive(Clone, Copy, Debug, PartialEq, Eq)]
pub struct Numbers {
    pub n: usize,
    pub m: usize,
    pub q: usize,
    pub bits: usize,
    pub undo: usize,
}

// Refusals 1 to 8, or the base's header, and its entries in the rows of t; zeros and no rows where
// there is no base.
fn load_base(base: &[u8], t: &mut [Row]) -> Result<Header, Refusal>
    requires { length t.old ≡ 682 }
    ensures known { BaseKnown base.now result t.new }
{
    if base.is_empty() {
        return Ok(Header {
            number: 0,
            n: 0,
            m: 0,
            q: 0,
            bits: 0,
        });
    }
    reader::load_page(base, t)
}

// Refusals 10 to 15 of a record over the first n old rows, where the undo buffer has `room` bytes;
// or the new page's numbers, the new rows, and the undo record at the front of scratch.
fn plan(
    old: &[Row],
    n: usize,
    rec: &[u8],
    room: usize,
    new: &mut [Row],
    scratch: &mut [u8],
) -> Result<Numbers, Refusal>
    requires { Old n old.now × (length new.old ≡ 682) × (length scratch.old ≡ 24704) }
    ensures known { Planning (rows n old.now) rec.now room result
        new.new scratch.new }
{
    let k = apply::edit_rows(rec, old, n, new)?;
    let c = choice::choose(new, k)?;
    let len = undo::write_undo(old, n, new, k, scratch);
    if room < len {
        return Err(Refusal::UndoTooShort);
    }
    Ok(Numbers {
        n: k,
        m: c.m,
        q: c.q,
        bits: c.bits,
        undo: len,
    })
}

// Writes the page of the new rows, with the base's help, and the undo record from scratch.
fn finish(
    base: &[u8],
    h: Header,
    new: &[Row],
    v: Numbers,
    number: u32,
    page: &mut [u8],
    scratch: &[u8],
    undo: &mut [u8],
)
    requires { Ready base.now h v new.now page.old scratch.now undo.old }
    ensures page { page.new ≡ normal_page number (rows v.n new.now) }
    ensures undo { undo.new
        ≡ take v.undo scratch.now ++ drop v.undo undo.old }
{
    let n = v.n;
    let len = v.undo;
    page::write_page_over(page, number, base, h.n, h.m, h.q, new, n, v.m, v.q);
    undo[..len].copy_from_slice(&scratch[..len]);
}

// Builds a page with a page number over a base, which has no bytes where there is none, by the edits
// of a record. Accepted, the page is the normal page of the new entries, and the undo buffer begins
// with the undo record; its bytes behind that are as they were. Refused, with the first of 1 to 15
// that holds, page and undo buffer are as they were.
pub fn build(
    base: &[u8],
    rec: &[u8],
    number: u32,
    page: &mut [u8],
    undo: &mut [u8],
) -> Result<Numbers, Refusal>
    ensures answer { built_answer result
        ≡ (build base.now rec.now number page.old
        undo.old).answer }
    ensures page { page.new
        ≡ (build base.now rec.now number page.old
        undo.old).page }
    ensures undo { undo.new
        ≡ (build base.now rec.now number page.old
        undo.old).undo }
{
    let mut old = [Row::default(); 682];
    let h = load_base(base, &mut old)?;
    if page.len() != BranchNodeBuilder::PAGE_SIZE {
        return Err(Refusal::OutputLength);
    }
    let mut new = [Row::default(); 682];
    let mut scratch = [0u8; 24704];
    let v = plan(&old, h.n, rec, undo.len(), &mut new, &mut scratch)?;
    finish(base, h, &new, v, number, page, &scratch, undo);
    Ok(v)
}
