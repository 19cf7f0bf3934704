// Words of a byte slice: the 64 bits from any bit on, most significant first. Each public function
// is total: bytes past the end read as zeros, and a word that does not fit is not stored.
// What they mean: `bits`, `bits_of` and `fill` of format's specs/Bits.antt, and specs/Words.antt.
#![tactic(auto)]

ghost use Rattle.std.specs.Prelude.{◌≡◌, ◌++◌, ◌+◌, ◌-◌, ◌*◌, ◌%◌, ◌^◌, ◌<◌, ◌≤◌, length, take, drop};
ghost use Rattle.format.specs.Bits.{bits, bits_of, fill, pack};
ghost use Rattle.words.specs.Words.{window_bits, with_first, with_word, word_bits};

// The 64 bits of the eight bytes from i on, which are there.
fn eight(s: &[u8], i: usize) -> u64
    requires { i + 8 ≤ length s.now }
    ensures answer { bits 64 result ≡ fill 64 (drop (8 * i) (bits_of s.now)) }
{
    u64::from_be_bytes(s[i..i + 8].try_into().unwrap())
}

// The 64 bits of the eight bytes from i on, near the end.
fn near_end(s: &[u8], i: usize) -> u64
    requires { i < 2 ^ 63 }
    ensures answer { bits 64 result ≡ fill 64 (drop (8 * i) (bits_of s.now)) }
{
    let mut x = 0;
    for k in 0..8 {
        x = x * 0x100 + numbers::byte_at(s, i + k);
    }
    x
}

// The 64 bits from bit h on of a word and the byte behind it.
fn shifted(x: u64, y: u64, h: usize) -> u64
    requires { (h < 8) × (y < 256) }
    ensures answer { bits 64 result ≡ take 64 (drop h (bits 64 x ++ bits 8 y)) }
{
    (x << h) + (y >> (8 - h))
}

// The 64 bits from bit h of byte i on, out of nine bytes that are there.
fn nine(s: &[u8], i: usize, h: usize) -> u64
    requires { (i + 8 < length s.now) × (h < 8) }
    ensures answer { bits 64 result ≡ fill 64 (drop (8 * i + h) (bits_of s.now)) }
{
    shifted(eight(s, i), u64::from(s[i + 8]), h)
}

// The 64 bits from bit h of byte i on, near the end.
fn nine_near_end(s: &[u8], i: usize, h: usize) -> u64
    requires { (i < 2 ^ 63) × (h < 8) }
    ensures answer { bits 64 result ≡ fill 64 (drop (8 * i + h) (bits_of s.now)) }
{
    shifted(near_end(s, i), numbers::byte_at(s, i + 8), h)
}

// The 64 bits from bit h of byte i on, one of the last eight bytes: of those, what is left of h.
fn last(s: &[u8], i: usize, h: usize) -> u64
    requires { (8 ≤ length s.now) × (length s.now ≤ i + 8) × (i < length s.now) × (h < 8) }
    ensures answer { bits 64 result ≡ fill 64 (drop (8 * i + h) (bits_of s.now)) }
{
    let j = s.len() - 8;
    eight(s, j) << (8 * (i - j) + h)
}

// The 64 bits from bit h of byte i on, where the ninth byte from there is not in the slice.
fn at_end(s: &[u8], i: usize, h: usize) -> u64
    requires { (length s.now ≤ i + 8) × (h < 8) }
    ensures answer { bits 64 result ≡ fill 64 (drop (8 * i + h) (bits_of s.now)) }
{
    if s.len() <= i {
        return 0;
    }
    if s.len() < 8 {
        return nine_near_end(s, i, h);
    }
    last(s, i, h)
}

// The 64 bits from bit h % 8 of byte i on.
pub fn at_place(s: &[u8], i: usize, h: usize) -> u64
    ensures answer { bits 64 result ≡ fill 64 (drop (8 * i + h % 8) (bits_of s.now)) }
{
    if i < s.len().saturating_sub(8) {
        return nine(s, i, h % 8);
    }
    at_end(s, i, h % 8)
}

// The 64 bits from bit `start + skip` on; the sum itself need not fit.
pub fn at_bit(s: &[u8], start: usize, skip: usize) -> u64
    ensures answer { bits 64 result ≡ fill 64 (drop (start + skip) (bits_of s.now)) }
{
    let h = start % 8 + skip % 8;
    at_place(s, start / 8 + skip / 8 + h / 8, h)
}

// The 64 bits of the eight bytes from i on, where they are in the slice; else zeros.
pub fn word_at(s: &[u8], i: usize) -> u64
    ensures answer { bits 64 result ≡ word_bits s.now i }
{
    if s.len().saturating_sub(7) <= i {
        return 0;
    }
    eight(s, i)
}

// The 64 bits from bit `start` on, where the nine bytes from there on are in the slice; else zeros.
// As `at_bit`, with no way round the slice's end, so that a loop can hold it.
pub fn window(s: &[u8], start: usize) -> u64
    ensures answer { bits 64 result ≡ window_bits s.now start }
{
    window_at(s, start / 8, start)
}

// The same from bit h % 8 of byte i on.
pub fn window_at(s: &[u8], i: usize, h: usize) -> u64
    ensures answer { bits 64 result ≡ window_bits s.now (8 * i + h % 8) }
{
    if i < s.len().saturating_sub(8) {
        return nine(s, i, h % 8);
    }
    0
}

// The first k bits of x, and zeros; all of x where k is 64 or more.
pub fn first_bits(x: u64, k: usize) -> u64
    ensures answer { bits 64 result ≡ fill 64 (take k (bits 64 x)) }
{
    joined(x, k, 0)
}

// The first j bits of x, and those of y behind them; all of x where j is 64 or more.
pub fn joined(x: u64, j: usize, y: u64) -> u64
    ensures answer { bits 64 result ≡ take 64 (take j (bits 64 x) ++ bits 64 y) }
{
    if 64 <= j {
        return x;
    }
    x - (x << j >> j) + (y >> j)
}

// The first n bits of x, and those of y from bit n on.
pub fn spliced(x: u64, n: usize, y: u64) -> u64
    ensures answer { bits 64 result ≡ take n (bits 64 x) ++ drop n (bits 64 y) }
{
    if 64 <= n {
        return x;
    }
    x - (x << n >> n) + (y << n >> n)
}

// The last h bits of x, and the first of y behind them; all of x where h is 64 or more.
pub fn across(x: u64, y: u64, h: usize) -> u64
    ensures answer { bits 64 result ≡ drop (64 - h) (bits 64 x) ++ take (64 - h) (bits 64 y) }
{
    if 64 <= h {
        return x;
    }
    (x << (63 - h) << 1) + (y >> h)
}

// The word x in the eight bytes from i on, most significant first; nothing where they do not fit.
pub fn store(s: &mut [u8], i: usize, x: u64)
    ensures written { s.new ≡ with_word s.old i x }
{
    if i < s.len().saturating_sub(7) {
        s[i..i + 8].copy_from_slice(&x.to_be_bytes());
    }
}

// The first bytes of the word x in those of s, as many as both have; the others stay.
pub fn store_first(s: &mut [u8], x: u64)
    ensures written { s.new ≡ with_first s.old x }
{
    let n = s.len().min(8);
    s[..n].copy_from_slice(&x.to_be_bytes()[..n]);
}
