// Bit operations on keys, bits most significant first: shared bits, separator length, separate, key
// rebuilding. Document 01, "The page" and the refusals 17 to 19; their meaning stands in format's
// specs/Key.antt and specs/Ranges.antt, what each call that writes promises in specs/Calls.antt.
// Bit copy stands in `bit_copy`.
#![tactic(auto)]

ghost use Rattle.std.specs.Prelude.{◌≡◌, ◌≤◌, take};
ghost use Rattle.format.specs.Bits.{bits_of, fill, pack};
ghost use Rattle.format.specs.Key.{below, shared_bits, separator_length};
ghost use Rattle.bit_ops.specs.Calls.{Separated, Rebuilt};

use format::refusal::Refusal;
use keys::Key;

// Separator length: 256 less the zero bits at the key's end, and 1 for the all-zero key. By the
// trailing zeros of its 64-bit groups.
pub fn separator_len(key: &[u8; 32]) -> usize
    ensures answer { result ≡ separator_length (bits_of key.now) }
    ensures bound { result ≤ 256 }
{
    Key::from_bytes(key).separator_len()
}

// Shared bits of two keys: counted from the front, up to the first in which they differ; 256 if
// they are equal.
pub fn prefix_len(a: &[u8; 32], b: &[u8; 32]) -> usize
    ensures answer { result ≡ shared_bits (bits_of a.now) (bits_of b.now) }
    ensures bound { result ≤ 256 }
{
    let x = &a[..];
    let y = &b[..];
    let mut n = 0;
    'bytes: for byte in 0..32usize {
        for bit in 0..8u8 {
            let mask = 1u8 << (7 - bit);
            if (x[byte] & mask) != (y[byte] & mask) {
                break 'bytes;
            }
            n += 1;
        }
    }
    n
}

// The same by the leading zeros of the first 64-bit groups that differ.
pub fn prefix_len_by_words(a: &[u8; 32], b: &[u8; 32]) -> usize
    ensures answer { result ≡ shared_bits (bits_of a.now) (bits_of b.now) }
    ensures bound { result ≤ 256 }
{
    let x = Key::from_bytes(a);
    let y = Key::from_bytes(b);
    x.prefix_len(y)
}

// Whether a is below b.
fn is_below(a: &[u8; 32], b: &[u8; 32]) -> bool
    ensures answer { result ≡ below (bits_of a.now) (bits_of b.now) }
{
    let x = Key::from_bytes(a);
    let y = Key::from_bytes(b);
    x.less(y)
}

// The first n bits of b, and zeros, into `out`.
fn put_first(b: &[u8; 32], n: usize, out: &mut [u8; 32])
    ensures written { out.new ≡ pack 32 (fill 256 (take n (bits_of b.now))) }
{
    let s = &b[..];
    let k = Key::zero().with_bits(0, s, 0, n);
    k.to_bytes(out);
}

// Separate a and b, a < b: `out` becomes the first (shared + 1) bits of b, then zeros. Refused with
// 17 where a is not below b, and then `out` is as it was.
pub fn separate(a: &[u8; 32], b: &[u8; 32], out: &mut [u8; 32]) -> Result<(), Refusal>
    ensures { Separated a.now b.now out.old result out.new }
{
    if !is_below(a, b) {
        return Err(Refusal::NotBelow);
    }
    let n = prefix_len_by_words(a, b);
    put_first(b, n + 1, out);
    Ok(())
}

// Key rebuilding: `out` becomes the first `prefix_bits` bits of prefix, the `bits` bits of
// separator from `start` on, and zeros; with no bits at all, the zero key. Refused with 18 where a
// range lies outside its slice, then with 19 for more than 256 bits, and then `out` is as it was.
pub fn reconstruct_key(
    prefix: &[u8],
    prefix_bits: usize,
    separator: &[u8],
    start: usize,
    bits: usize,
    out: &mut [u8; 32],
) -> Result<(), Refusal>
    ensures { Rebuilt prefix.now prefix_bits separator.now start bits out.old result out.new }
{
    if !bit_copy::lies_inside(prefix.len(), 0, prefix_bits) {
        return Err(Refusal::RangeOutside);
    }
    if !bit_copy::lies_inside(separator.len(), start, bits) {
        return Err(Refusal::RangeOutside);
    }
    if 256 < prefix_bits {
        return Err(Refusal::Unrepresentable);
    }
    if 256 - prefix_bits < bits {
        return Err(Refusal::Unrepresentable);
    }
    let k = Key::zero().with_bits(0, prefix, 0, prefix_bits);
    k.with_bits(prefix_bits, separator, start, bits)
        .to_bytes(out);
    Ok(())
}
