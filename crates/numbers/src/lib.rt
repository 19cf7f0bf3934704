// Plain numbers: the bytes that bits take, and the numbers that bytes of a slice hold, least
// significant byte first. Each public function is total: bytes past the end read as zeros.
// What they mean: `bytes_for` and `unle` of format's specs/Bits.antt.
#![tactic(auto)]

ghost use Rattle.std.specs.Prelude.{◌≡◌, ◌+◌, ◌-◌, ◌^◌, ◌<◌, ◌≤◌, min, length, take, drop, get_or};
ghost use Rattle.format.specs.Bits.{bytes_for, unle};

// The bytes of at + len bits; the sum itself need not fit.
#[tactic(auto, unfolding(format::specs::Bits::bytes_for))]
pub fn bytes_for(at: usize, len: usize) -> usize
    ensures answer { result ≡ bytes_for (at + len) }
{
    at / 8 + len / 8 + (at % 8 + len % 8).div_ceil(8)
}

// The byte at i.
pub fn byte_at(s: &[u8], i: usize) -> u64
    ensures answer { (result ≡ get_or s.now i 0) × (result < 256) }
{
    u64::from(s.get(i).copied().unwrap_or(0))
}

// The two bytes from i on, least significant first.
pub fn le_u16(s: &[u8], i: usize) -> usize
    ensures answer { (result ≡ unle (take 2 (drop i s.now))) × (result < 65536) }
{
    if i < s.len().saturating_sub(1) {
        return usize::from(u16::from_le_bytes([s[i], s[i + 1]]));
    }
    byte_at(s, i) as usize
}

// The four bytes from i on, least significant first; near the end, by two and two.
pub fn le_u32(s: &[u8], i: usize) -> u64
    ensures answer { (result ≡ unle (take 4 (drop i s.now))) × (result < 2 ^ 32) }
{
    if i < s.len().saturating_sub(3) {
        return u64::from(u32::from_le_bytes([s[i], s[i + 1], s[i + 2], s[i + 3]]));
    }
    let j = i.min(s.len());
    le_u16(s, j) as u64 + le_u16(s, j + 2) as u64 * 0x10000
}
