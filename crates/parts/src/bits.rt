// Bits in bytes: those of keys and of numbers, and the zeros behind them. Bits of a word go into the
// bytes as a word; near the end of the bytes, and bits across a key's words, by
// `bit_copy::bitwise_memcpy`.
ghost use Rattle.std.specs.Prelude.{◌≡◌, ◌++◌, ◌+◌, ◌-◌, ◌*◌, ◌≤◌, ◌<◌, length, take, replicate};
ghost use Rattle.std.proofs.Math.Seq.{paste};
ghost use Rattle.format.specs.Bits.{bits, bits_of};
ghost use Rattle.keys.specs.Keys.{key_bits};
ghost use Rattle.parts.specs.Parts.{with_key, with_first, with_number, cleared};

use keys::Key;

// The first n bits of a word into the eight bytes from i on, which are there, from bit h on.
fn put_in_word(d: &mut [u8], i: usize, h: usize, x: u64, n: usize)
    requires { (h + n ≤ 64) × (i + 8 ≤ length d.old) }
    ensures written { bits_of d.new
        ≡ paste (bits_of d.old) (8 * i + h) (bits 64 x) n }
{
    let old = words::word_at(d, i);
    let y = words::joined(old, h, x);
    words::store(d, i, words::spliced(y, h + n, old));
}

// The first n bits of a word into the 16 bytes from i on, which are there, from bit h on.
fn put_in_two(d: &mut [u8], i: usize, h: usize, x: u64, n: usize)
    requires { (h < 8) × (n ≤ 64) × (i + 16 ≤ length d.old) }
    ensures written { bits_of d.new
        ≡ paste (bits_of d.old) (8 * i + h) (bits 64 x) n }
{
    let head = 64 - h;
    if n <= head {
        put_in_word(d, i, h, x, n);
        return;
    }
    put_in_word(d, i, h, x, head);
    put_in_word(d, i + 8, 0, x << head, n - head);
}

// The first n bits of a word into d from the bit `at` on, which d has.
fn put_word(d: &mut [u8], at: usize, x: u64, n: usize)
    requires { (n ≤ 64) × (at + n ≤ 8 * length d.old) }
    ensures written { bits_of d.new
        ≡ paste (bits_of d.old) at (bits 64 x) n }
{
    let i = at / 8;
    if i < d.len().saturating_sub(15) {
        put_in_two(d, i, at % 8, x, n);
        return;
    }
    let _ = bit_copy::bitwise_memcpy(d, at, &x.to_be_bytes(), 0, n);
}

// The first n bits of a word into d from the bit `at` on; nothing where they are not in d.
fn put_first(d: &mut [u8], at: usize, x: u64, n: usize)
    requires { n ≤ 64 }
    ensures written { d.new ≡ with_first d.old at n x }
{
    if n == 0 {
        return;
    }
    if d.len() < numbers::bytes_for(at, n) {
        return;
    }
    put_word(d, at, x, n);
}

// A key's 256 bits into the 40 bytes from i on, which are there, from bit h on.
fn put_whole(d: &mut [u8], i: usize, h: usize, k: Key)
    requires { (h < 8) × (i + 40 ≤ length d.old) }
    ensures written { bits_of d.new
        ≡ paste (bits_of d.old) (8 * i + h) (key_bits k) 256 }
{
    put_in_word(d, i, h, k.a, 64 - h);
    words::store(d, i + 8, words::across(k.a, k.b, h));
    words::store(d, i + 16, words::across(k.b, k.c, h));
    words::store(d, i + 24, words::across(k.c, k.d, h));
    put_in_word(d, i + 32, 0, words::across(k.d, 0, h), h);
}

// Copies `len` bits of a key, by way of its bytes.
fn put_by_bytes(d: &mut [u8], at: usize, k: Key, from: usize, len: usize)
    ensures written { d.new ≡ with_key d.old at (key_bits k) from len }
{
    let mut bytes = [0u8; 32];
    k.to_bytes(&mut bytes);
    let _ = bit_copy::bitwise_memcpy(d, at, &bytes, from, len);
}

// Copies `len` bits of a key from its bit `from` on to d from the bit `at` on; nothing where they
// are not in the key or not in d. Bits of its first word, and all its bits, are written as words.
pub fn put_key(d: &mut [u8], at: usize, k: Key, from: usize, len: usize)
    ensures written { d.new ≡ with_key d.old at (key_bits k) from len }
{
    if from < 64 && len <= 64 - from {
        put_first(d, at, k.a << from, len);
        return;
    }
    if from == 0 && len == 256 && at / 64 < (d.len() / 8).saturating_sub(5) {
        put_whole(d, at / 8, at % 8, k);
        return;
    }
    put_by_bytes(d, at, k, from, len);
}

// Writes the n low bits of a number, most significant first, to d from the bit `at` on; nothing
// where they are more than 64 or not in d.
pub fn put_number(d: &mut [u8], at: usize, n: usize, x: u64)
    ensures written { d.new ≡ with_number d.old at n x }
{
    if 64 < n {
        return;
    }
    if n == 0 {
        return;
    }
    put_first(d, at, x << (64 - n), n);
}

// Zeros in the bits from `at` on: those of a byte that is begun, then whole bytes. Nothing where d
// ends before.
pub fn clear_from(d: &mut [u8], at: usize)
    ensures written { d.new ≡ cleared d.old at }
{
    let i = at / 8;
    let h = at % 8;
    if d.len() <= i {
        return;
    }
    if 0 < h {
        let _ = bit_copy::bitwise_memcpy(d, at, &[0], 0, 8 - h);
        d[i + 1..].fill(0);
    } else {
        d[i..].fill(0);
    }
}
