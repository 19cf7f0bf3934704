// The cases of bit_ops. Each function answers whether its case came out as it should: the answer,
// and every byte of lent memory. A case that is not well formed did not.
use crate::cases::Fields;

// Fields: key, length.
pub(crate) fn sep_len(s: Fields<'_>) -> bool {
    let Some(key) = s.key(0) else {
        return false;
    };
    bit_ops::separator_len(&key) == s.size(1)
}

// Fields: a, b, shared bits. They are counted bit by bit and by groups.
pub(crate) fn shared(s: Fields<'_>) -> bool {
    let (Some(a), Some(b)) = (s.key(0), s.key(1)) else {
        return false;
    };
    let n = s.size(2);
    bit_ops::prefix_len(&a, &b) == n && bit_ops::prefix_len_by_words(&a, &b) == n
}

// Fields: a, b, out before, refusal, out afterwards.
pub(crate) fn separate(s: Fields<'_>) -> bool {
    let (Some(a), Some(b)) = (s.key(0), s.key(1)) else {
        return false;
    };
    let mut out = [0u8; 32];
    s.load(2, &mut out);
    let r = bit_ops::separate(&a, &b, &mut out);
    s.answers(3, r, |()| true) && s.get(4) == out.as_slice()
}

// Fields: dst before, its start bit, src, its start bit, how many bits, refusal, dst afterwards.
pub(crate) fn copy(s: Fields<'_>) -> bool {
    let mut room = [0u8; 256];
    let size = s.load(0, &mut room);
    let r = bit_copy::bitwise_memcpy(&mut room[..size], s.size(1), s.get(2), s.size(3), s.size(4));
    s.answers(5, r, |()| true) && s.get(6) == &room[..size]
}

// Fields: prefix, its bits, separator, its start bit, its bits, out before, refusal, and out
// afterwards.
pub(crate) fn rebuild(s: Fields<'_>) -> bool {
    let mut out = [0u8; 32];
    s.load(5, &mut out);
    let r = bit_ops::reconstruct_key(
        s.get(0),
        s.size(1),
        s.get(2),
        s.size(3),
        s.size(4),
        &mut out,
    );
    s.answers(6, r, |()| true) && s.get(7) == out.as_slice()
}
