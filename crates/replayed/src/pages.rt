// The cases of sizes and node. Each function answers whether its case came out as it should: the
// answer, and every byte of lent memory. A case that is not well formed did not.
use crate::cases::Fields;
use format::refusal::Refusal;
use node::reader;

// Fields: q, sum, n, refusal, size.
pub(crate) fn body(s: Fields<'_>) -> bool {
    let r = sizes::body_size(s.size(0), s.size(1), s.size(2));
    s.answers(3, r, |x| x == s.size(4))
}

// Fields: the four numbers of a formula, refusal, size.
fn formula<F: FnOnce(usize, usize, usize, usize) -> Result<usize, Refusal>>(
    s: Fields<'_>,
    size: F,
) -> bool
    requires { F.IsAlwaysCallable size }
{
    let r = size(s.size(0), s.size(1), s.size(2), s.size(3));
    s.answers(4, r, |x| x == s.size(5))
}

// Fields: q, sum, n, first length, refusal, size.
pub(crate) fn whole(s: Fields<'_>) -> bool {
    formula(s, sizes::uncompressed_separator_range_size)
}

// Fields: first length, m, sum of the others, q, refusal, size.
pub(crate) fn stored(s: Fields<'_>) -> bool {
    formula(s, sizes::compressed_separator_range_size)
}

// Fields: page, and of its check: refusal, page number, n, m, q, bits; index, and of the entry there:
// key before, refusal, pointer, key afterwards.
pub(crate) fn page(s: Fields<'_>) -> bool {
    let page = s.get(0);
    let mut key = [0u8; 32];
    s.load(8, &mut key);
    let checked = reader::check(page);
    let entry = reader::entry(page, s.size(7), &mut key);
    s.answers(1, checked, |h| {
        s.number(2) == Some(h.number)
            && s.size(3) == h.n
            && s.size(4) == h.m
            && s.size(5) == h.q
            && s.size(6) == h.bits
    }) && s.answers(9, entry, |x| s.number(10) == Some(x))
        && s.get(11) == key.as_slice()
}
