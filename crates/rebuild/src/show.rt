// A page, entry by entry, through its view.
use crate::LOOKED_AT;
use crate::tell::Failure;
use node::reader;
use shape::Header;

// How many bits entry i stores.
fn stored(page: &[u8], i: usize) -> usize {
    shape::cell(page, i).saturating_sub(shape::start_offset(page, i))
}

// Entry i: its index, compressed or plain, its stored bits, its key and its pointer.
fn line(rt: &impl Print, page: &[u8], h: Header, i: usize) -> Result<(), Failure> {
    let (key, pointer) = view::read_entry(page, i).map_err(|why| Failure::Refused(LOOKED_AT, why))?;
    let kind = if i < h.m { "compressed" } else { "plain" };
    println!(rt; "{i} {kind} {} {key} {pointer}", stored(page, i))?;
    Ok(())
}

// A line for the header, if the page is not refused.
pub(crate) fn header(rt: &impl Print, page: &[u8]) -> Result<Header, Failure> {
    let h = reader::check(page).map_err(|why| Failure::Refused(LOOKED_AT, why))?;
    println!(rt; "{h}")?;
    Ok(h)
}

// A line for the header, and one for each entry.
pub(crate) fn page(rt: &impl Print, page: &[u8]) -> Result<(), Failure> {
    let h = header(rt, page)?;
    for i in 0..h.n {
        line(rt, page, h, i)?;
    }
    Ok(())
}
