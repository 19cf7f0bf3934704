// Little-endian numbers, stored in a lent slice.
ghost use Rattle.std.specs.Prelude.{◌≡◌, ◌+◌, ◌≤◌, length};
ghost use Rattle.std.proofs.Math.Seq.{paste};
ghost use Rattle.format.specs.Bits.{le};

// Stores a number in the W bytes from i on; what does not fit them is lost.
pub(crate) fn put<const W: usize>(d: &mut [u8], i: usize, x: u64)
    requires { (W ≤ 8) × (i + W ≤ length d.old) }
    ensures written { d.new ≡ paste d.old i (le W x) W }
{
    d[i..i + W].copy_from_slice(&x.to_le_bytes()[..W]);
}
