// Bit copy between byte slices, bits most significant first. Document 01, "The page" and refusal 18;
// its meaning stands in format's specs/Ranges.antt, what the call promises in specs/Calls.antt.
#![tactic(auto)]

mod runs;

ghost use Rattle.std.specs.Prelude.{◌≡◌};
ghost use Rattle.format.specs.Ranges.{inside};
ghost use Rattle.bit_copy.specs.Calls.{Copied};

use crate::runs::Run;
use format::refusal::Refusal;

// Whether `len` bits from the bit `at` on lie inside `size` bytes.
pub fn lies_inside(size: usize, at: usize, len: usize) -> bool
    ensures answer { result ≡ inside size at len }
{
    len == 0 || numbers::bytes_for(at, len) <= size
}

// Bit copy: the `bits` bits of dst from `dst_bit` on become those of src from `src_bit` on, and no
// other bit changes. Refused with 18 where a range lies outside its slice, and then dst is as it
// was; a range of no bits lies inside any slice, whatever its start.
pub fn bitwise_memcpy(
    dst: &mut [u8],
    dst_bit: usize,
    src: &[u8],
    src_bit: usize,
    bits: usize,
) -> Result<(), Refusal>
    ensures { Copied dst.old dst_bit src.now src_bit bits result dst.new }
{
    if !lies_inside(dst.len(), dst_bit, bits) || !lies_inside(src.len(), src_bit, bits) {
        return Err(Refusal::RangeOutside);
    }
    if bits == 0 {
        return Ok(());
    }
    runs::copy_inside(dst, dst_bit, Run::new(src, src_bit, bits));
    Ok(())
}
