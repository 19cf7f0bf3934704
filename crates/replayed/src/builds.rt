// Cases of build.
use crate::cases::Fields;
use format::layout;

// Fields: base, record, page number; the output page's length, and the byte that it held all over;
// the undo buffer; refusal, n, m, q, bits and the undo record's length; the page afterwards, no bytes
// where it is to be as it was; the undo buffer afterwards.
pub(crate) fn build(s: Fields<'_>) -> bool {
    let held = (s.size(4) % 256) as u8;
    let mut page = [held; layout::PAGE_SIZE];
    let was = page;
    let n = s.size(3).min(page.len());
    let mut undo = [0u8; 2048];
    let room = s.load(5, &mut undo);
    built(s, &mut page[..n], &was[..n], &mut undo[..room])
}

// A build into page and undo; was is what the page held.
fn built(s: Fields<'_>, page: &mut [u8], was: &[u8], undo: &mut [u8]) -> bool {
    let number = (s.size(2) % 0x100000000) as u32;
    let r = build::build(s.get(0), s.get(1), number, page, undo);
    let expected = if r.is_ok() { s.get(12) } else { was };
    s.answers(6, r, |v| {
        s.size(7) == v.n
            && s.size(8) == v.m
            && s.size(9) == v.q
            && s.size(10) == v.bits
            && s.size(11) == v.undo
    }) && s.get(13) == &*undo
        && expected == &*page
}
