// A key of 256 bits, as four words by value, the most significant first. Its bits: `key_bits` of
// specs/Keys.antt.
#![tactic(auto)]

ghost use Rattle.std.specs.Prelude.{◌≡◌, ◌++◌, ◌+◌, ◌-◌, ◌≤◌, ◌<◌, take, drop, replicate};
ghost use Rattle.format.specs.Bits.{bits, bits_of, fill, pack};
ghost use Rattle.format.specs.Key.{separator_length, shared_bits, below};
ghost use Rattle.keys.specs.Keys.{key_bits};

use std::fmt;

// Keys are in the order of their words, the first word first.
#[derive(Clone, Copy, Debug, Default, PartialEq, Eq, PartialOrd, Ord)]
pub struct Key {
    pub a: u64,
    pub b: u64,
    pub c: u64,
    pub d: u64,
}

// Bits lo to lo + 63 of the key that has the first q bits of another, whose word there is x, then
// len bits of s from bit `start` on, then zeros.
fn word_of(x: u64, lo: usize, q: usize, s: &[u8], start: usize, len: usize) -> u64
    ensures answer { bits 64 result ≡ fill 64 (take (q - lo) (bits 64 x)
        ++ take (len - (lo - q)) (drop (start + (lo - q)) (bits_of s.now))) }
{
    let kept = q.saturating_sub(lo);
    if 64 <= kept {
        return x;
    }
    let skip = lo.saturating_sub(q);
    let left = len.saturating_sub(skip);
    if left == 0 {
        return words::first_bits(x, kept);
    }
    words::joined(
        x,
        kept,
        words::first_bits(words::at_bit(s, start, skip), left),
    )
}

impl Key {
    // The key of zeros.
    pub fn zero() -> Self
        ensures answer { key_bits result ≡ replicate 256 0 }
    {
        Key::default()
    }

    // Separator length: 256 less the zero bits at the key's end, and 1 for the key of zeros.
    pub fn separator_len(self) -> usize
        ensures answer { (result ≡ separator_length (key_bits self)) × (1 ≤ result) × (result ≤ 256) }
    {
        if self.d != 0 {
            return 256 - self.d.trailing_zeros() as usize;
        }
        if self.c != 0 {
            return 192 - self.c.trailing_zeros() as usize;
        }
        if self.b != 0 {
            return 128 - self.b.trailing_zeros() as usize;
        }
        if self.a != 0 {
            return 64 - self.a.trailing_zeros() as usize;
        }
        1
    }

    // Shared bits, by the leading zeros of the first words that differ; 256 if the keys are equal.
    pub fn prefix_len(self, o: Key) -> usize
        ensures answer { (result ≡ shared_bits (key_bits self) (key_bits o)) × (result ≤ 256) }
    {
        if self.a != o.a {
            return (self.a ^ o.a).leading_zeros() as usize;
        }
        if self.b != o.b {
            return 64 + (self.b ^ o.b).leading_zeros() as usize;
        }
        if self.c != o.c {
            return 128 + (self.c ^ o.c).leading_zeros() as usize;
        }
        if self.d != o.d {
            return 192 + (self.d ^ o.d).leading_zeros() as usize;
        }
        256
    }

    // Whether this key is below the other: what `<` answers too, in less time where the two are often
    // equal.
    pub fn less(self, o: Key) -> bool
        ensures answer { result ≡ below (key_bits self) (key_bits o) }
    {
        if self.a != o.a {
            return self.a < o.a;
        }
        if self.b != o.b {
            return self.b < o.b;
        }
        if self.c != o.c {
            return self.c < o.c;
        }
        self.d < o.d
    }

    // The first q bits of this key, len bits of s from bit `start` on, and zeros up to 256.
    pub fn with_bits(self, q: usize, s: &[u8], start: usize, len: usize) -> Self
        ensures answer { key_bits result ≡ fill 256 (take q (key_bits self)
            ++ take len (drop start (bits_of s.now))) }
    {
        Key {
            a: word_of(self.a, 0, q, s, start, len),
            b: word_of(self.b, 64, q, s, start, len),
            c: word_of(self.c, 128, q, s, start, len),
            d: word_of(self.d, 192, q, s, start, len),
        }
    }

    // The same, for a loop over keys of which most have no more bits than the first word.
    pub fn with_few_bits(self, q: usize, s: &[u8], start: usize, len: usize) -> Self
        ensures answer { key_bits result ≡ fill 256 (take q (key_bits self)
            ++ take len (drop start (bits_of s.now))) }
    {
        if q <= 64 && len <= 64 - q && start / 8 < s.len().saturating_sub(8) {
            let bits = words::first_bits(words::window(s, start), len);
            return Key {
                a: words::joined(self.a, q, bits),
                ..Key::default()
            };
        }
        self.with_bits(q, s, start, len)
    }

    // The key that 32 bytes hold.
    pub fn from_bytes(bytes: &[u8; 32]) -> Self
        ensures answer { key_bits result ≡ bits_of bytes.now }
    {
        Key {
            a: words::at_bit(bytes, 0, 0),
            b: words::at_bit(bytes, 64, 0),
            c: words::at_bit(bytes, 128, 0),
            d: words::at_bit(bytes, 192, 0),
        }
    }

    // The key into 32 bytes.
    pub fn to_bytes(self, out: &mut [u8; 32])
        ensures written { out.new ≡ pack 32 (key_bits self) }
    {
        words::store(out, 0, self.a);
        words::store(out, 8, self.b);
        words::store(out, 16, self.c);
        words::store(out, 24, self.d);
    }
}

// The 64 hexadecimal digits of a key.
impl fmt::Display for Key {
    fn fmt<W: fmt::Write>(&self, f: &mut fmt::Formatter<W>) -> fmt::Result {
        write!(
            f,
            "{:016x}{:016x}{:016x}{:016x}",
            self.a, self.b, self.c, self.d
        )
    }
}
