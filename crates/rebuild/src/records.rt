// An edit record, edit by edit.
ghost use Rattle.std.specs.Prelude.{◌<◌};

use crate::LOOKED_AT;
use crate::tell::Failure;
use edits::record;
use format::refusal::Refusal;

// The first n edits.
fn lines(rt: &impl Print, s: &[u8], n: usize) -> Result<(), Failure>
    requires { n < 1024 }
{
    let mut p = 10;
    for i in 0..n {
        let e = record::edit_at(s, p);
        println!(rt; "{i} {e}")?;
        p += e.size();
    }
    Ok(())
}

// A line for the count of edits, and one for each edit; or that the record is malformed.
pub(crate) fn record(rt: &impl Print, s: &[u8]) -> Result<(), Failure> {
    if !record::formed(s) {
        return Err(Failure::Refused(LOOKED_AT, Refusal::MalformedRecord));
    }
    let n = record::count(s);
    println!(rt; "edits {n}")?;
    lines(rt, s, n)
}
