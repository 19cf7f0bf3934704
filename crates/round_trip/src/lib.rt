// Demand 3 as a program: a build, the build that brings the base back, and the build that brings the
// new page again, each held against what it must give. What it means: specs/Trip.antt.
// It takes some 250 KB of stack, with the build that runs in it, and no heap.
#![tactic(auto)]

ghost use Rattle.std.specs.Prelude.{◌≡◌};
ghost use Rattle.round_trip.specs.declared.TripError.TheVariants.{Refused};
ghost use Rattle.format.specs.Build.{build};
ghost use Rattle.round_trip.specs.Trip.{Agreed, brings_again, brings_back, is_normal, trip_answer};

use branch_ops::choice;
use build::Numbers;
use builder::page;
use format::refusal::Refusal;
use node::reader;
use rows::table::Row;
use std::error::Error;
use std::fmt;

// Why a round trip gives no numbers: its builds do not agree, or the first build is refused.
#[derive(Clone, Copy, Debug, PartialEq, Eq)]
pub enum TripError {
    Differs,
    Refused(Refusal),
}

impl From<Refusal> for TripError {
    ghost from_gives = { λ why e. e ≡ Refused why };

    fn from(why: Refusal) -> TripError {
        TripError::Refused(why)
    }
}

impl fmt::Display for TripError {
    fn fmt<W: fmt::Write>(&self, f: &mut fmt::Formatter<W>) -> fmt::Result {
        match self {
            TripError::Differs => f.write_str("the builds differ"),
            TripError::Refused(refusal) => write!(f, "{refusal}"),
        }
    }
}

impl Error for TripError {}

// Whether p is the normal page of the entries of a base that is accepted.
fn is_normal(base: &[u8], p: &[u8]) -> bool
    ensures answer { result ≡ is_normal base.now p.now }
{
    let mut t = [Row::default(); 682];
    let Ok(h) = reader::load_page(base, &mut t) else {
        return false;
    };
    let Ok(c) = choice::choose(&t, h.n) else {
        return false;
    };
    let mut own = [0u8; 4096];
    let number = numbers::le_u32(base, 0) as u32;
    page::write_page(&mut own, number, &t, h.n, c.m, c.q);
    own.as_slice() == p
}

// Whether a build over a page with a record and a number is accepted and gives the page p.
fn brings_again(over: &[u8], rec: &[u8], number: u32, p: &[u8]) -> bool
    ensures answer { result
        ≡ brings_again over.now rec.now number p.now }
{
    let mut again = [0u8; 4096];
    let mut undo = [0u8; 24704];
    build::build(over, rec, number, &mut again, &mut undo).is_ok() && again.as_slice() == p
}

// Whether a record over the page p brings the base back, as the normal page of its entries under its
// number, and what that build leaves as its undo record brings p again, under p's number.
pub fn brings_back(base: &[u8], p: &[u8], rec: &[u8], number: u32) -> bool
    ensures answer { result
        ≡ brings_back base.now p.now rec.now number }
{
    let mut back = [0u8; 4096];
    let mut redo = [0u8; 24704];
    let own = numbers::le_u32(base, 0) as u32;
    let Ok(w) = build::build(p, rec, own, &mut back, &mut redo) else {
        return false;
    };
    if !is_normal(base, &back) {
        return false;
    }
    let len = w.undo;
    brings_again(&back, &redo[..len], number, p)
}

// Builds as `build` does, and tries whether what it left brings the base back and the new page again;
// with no base there is nothing to bring back. The answer is never that they differ.
pub fn round_trip(
    base: &[u8],
    rec: &[u8],
    number: u32,
    page: &mut [u8],
    undo: &mut [u8],
) -> Result<Numbers, TripError>
    ensures answer { trip_answer result
        ≡ (build base.now rec.now number page.old
        undo.old).answer }
    ensures page { page.new
        ≡ (build base.now rec.now number page.old
        undo.old).page }
    ensures undo { undo.new
        ≡ (build base.now rec.now number page.old
        undo.old).undo }
    ensures agreed { Agreed base.now page.new undo.new number result }
{
    let v = build::build(base, rec, number, page, undo)?;
    if base.is_empty() {
        return Ok(v);
    }
    let len = v.undo;
    if !brings_back(base, page, &undo[..len], number) {
        return Err(TripError::Differs);
    }
    Ok(v)
}
