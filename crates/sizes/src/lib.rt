// The size formulas, on numbers of 64 bits. Only the exact result counts: it is answered, or refused
// with 19 where it is below zero or does not fit 64 bits. What they mean: format's
// specs/Sizes.antt, and `size_answer` of specs/Sizes.antt.
#![tactic(auto)]

ghost use Rattle.std.specs.Prelude.{◌≡◌, ◌+◌, ◌*◌, ◌/◌, ◌^◌, ◌<◌};
ghost use Rattle.format.specs.Sizes.{difference, body_size, whole_from_stored, stored_from_whole};
ghost use Rattle.sizes.specs.Sizes.{size_answer};

use format::refusal::Refusal;

// a + b + c.
fn total(a: usize, b: usize, c: usize) -> Result<usize, Refusal>
    ensures answer { size_answer result ≡ difference (a + b + c) 0 }
{
    let Some(two) = a.checked_add(b) else {
        return Err(Refusal::Unrepresentable);
    };
    two.checked_add(c).ok_or(Refusal::Unrepresentable)
}

// Body bytes: six for each of n entries, and the bits of prefix and stored separators rounded up to
// bytes. Refused with 19 past 64 bits.
pub fn body_size(
    prefix_len: usize,
    total_separator_lengths: usize,
    n: usize,
) -> Result<usize, Refusal>
    ensures answer { size_answer result ≡ body_size prefix_len total_separator_lengths n }
{
    let bytes = numbers::bytes_for(prefix_len, total_separator_lengths);
    let Some(cells) = n.checked_mul(6) else {
        return Err(Refusal::Unrepresentable);
    };
    cells.checked_add(bytes).ok_or(Refusal::Unrepresentable)
}

// Whole lengths from the stored ones of n entries: each has prefix_len bits more, but the first no
// more than it has in all. Refused with 19 past 64 bits, and below zero, which takes n = 0.
pub fn uncompressed_separator_range_size(
    prefix_len: usize,
    compressed_lengths: usize,
    n: usize,
    first_len: usize,
) -> Result<usize, Refusal>
    ensures answer { size_answer result
        ≡ whole_from_stored prefix_len compressed_lengths n first_len }
{
    let kept = prefix_len.min(first_len);
    if n == 0 {
        return compressed_lengths
            .checked_sub(prefix_len - kept)
            .ok_or(Refusal::Unrepresentable);
    }
    let Some(shared) = prefix_len.checked_mul(n - 1) else {
        return Err(Refusal::Unrepresentable);
    };
    total(compressed_lengths, shared, kept)
}

// head + others, less so many times q.
fn reduced(head: usize, others: usize, times: usize, q: usize) -> Result<usize, Refusal>
    requires { (q ≡ 0 → ⊥) × (head + q < 2 ^ 64) }
    ensures answer { size_answer result ≡ difference (head + others) (times * q) }
{
    // How often q goes into the others by themselves.
    let whole = others / q;
    if times <= whole {
        return total(head, others - times * q, 0);
    }
    let more = times - whole;
    let have = head + others % q;
    if have / q < more {
        return Err(Refusal::Unrepresentable);
    }
    Ok(have - more * q)
}

// Stored lengths from whole ones: the first loses prefix_len bits, or all it has, and each of the
// other compressed items prefix_len. Refused with 19 for no items, below zero and past 64 bits.
pub fn compressed_separator_range_size(
    first_separator_length: usize,
    prefix_compressed_items: usize,
    pre_compression_size_sum: usize,
    prefix_len: usize,
) -> Result<usize, Refusal>
    ensures answer { size_answer result
        ≡ stored_from_whole first_separator_length prefix_compressed_items
        pre_compression_size_sum prefix_len }
{
    let Some(others) = prefix_compressed_items.checked_sub(1) else {
        return Err(Refusal::Unrepresentable);
    };
    let head = first_separator_length.saturating_sub(prefix_len);
    if prefix_len == 0 {
        return total(head, pre_compression_size_sum, 0);
    }
    reduced(head, pre_compression_size_sum, others, prefix_len)
}
