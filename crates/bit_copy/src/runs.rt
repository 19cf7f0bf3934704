// Runs of bits that lie inside their slices, and their copy, a word at a time. Bit 0 is the most
// significant one of byte 0.
ghost use Rattle.std.specs.Prelude.{◌≡◌, ◌+◌, ◌-◌, ◌*◌, ◌^◌, ◌≤◌, ◌<◌, length, drop};
ghost use Rattle.std.proofs.Math.Seq.{paste};
ghost use Rattle.format.specs.Bits.{bits, bits_of};
ghost use Rattle.format.specs.Ranges.{bits_copied};
ghost use Rattle.bit_copy.specs.Runs.{Moved};

// The `len` bits of a slice from its bit `from + skip` on, which are there; that sum need not fit.
#[derive(Clone, Copy)]
pub(crate) struct Run<'a> {
    bytes: &'a [u8],
    from: usize,
    skip: usize,
    len: usize,
    ghost inside: { from + skip + len ≤ 8 * length bytes.now },
    ghost counted: { skip + len < 2 ^ 64 },
}

impl<'a> Run<'a> {
    // The `len` bits from bit `from` on.
    pub(crate) fn new(bytes: &'a [u8], from: usize, len: usize) -> Run<'a>
        requires { from + len ≤ 8 * length bytes.now }
        ensures of { (result.bytes.now ≡ bytes.now) × (result.from ≡ from) }
        ensures whole { (result.skip ≡ 0) × (result.len ≡ len) }
    {
        Run {
            bytes,
            from,
            skip: 0,
            len,
        }
    }

    // Its first n bits.
    fn first(self, n: usize) -> Run<'a>
        requires { n ≤ self.len }
        ensures of { (result.bytes.now ≡ self.entry.bytes.now) × (result.from ≡ self.entry.from) }
        ensures part { (result.skip ≡ self.entry.skip) × (result.len ≡ n) }
    {
        Run {
            bytes: self.bytes,
            from: self.from,
            skip: self.skip,
            len: n,
        }
    }

    // The bits behind its first n.
    fn behind(self, n: usize) -> Run<'a>
        requires { n ≤ self.len }
        ensures of { (result.bytes.now ≡ self.entry.bytes.now) × (result.from ≡ self.entry.from) }
        ensures part { (result.skip ≡ self.entry.skip + n) × (result.len ≡ self.entry.len - n) }
    {
        Run {
            bytes: self.bytes,
            from: self.from,
            skip: self.skip + n,
            len: self.len - n,
        }
    }

    // The word x, the bits from its bit h on replaced by these.
    fn into_word(self, x: u64, h: usize) -> u64
        requires { h + self.len ≤ 64 }
        ensures { bits 64 result ≡ paste (bits 64 x) h
            (drop (self.entry.from + self.entry.skip) (bits_of self.entry.bytes.now)) self.entry.len }
    {
        let v = words::at_bit(self.bytes, self.from, self.skip);
        let y = words::joined(x, h, v);
        words::spliced(y, h + self.len, x)
    }
}

// Copies a run into the eight bytes from i on, which are there, from their bit h on.
fn copy_in_word(dst: &mut [u8], i: usize, h: usize, run: Run<'_>)
    requires { (i + 8 ≤ length dst.old) × (h + run.len ≤ 64) }
    ensures { Moved dst.old (8 * i + h)
        run.entry.bytes.now (run.entry.from + run.entry.skip) run.entry.len dst.new }
{
    let x = words::word_at(dst, i);
    let y = run.into_word(x, h);
    words::store(dst, i, y);
}

// Copies a run into a dst of fewer than eight bytes, from bit h on: all of it is one word, with
// zeros behind it.
fn copy_in_few(dst: &mut [u8], h: usize, run: Run<'_>)
    requires { (length dst.old < 8) × (h + run.len ≤ 8 * length dst.old) }
    ensures { Moved dst.old h
        run.entry.bytes.now (run.entry.from + run.entry.skip) run.entry.len dst.new }
{
    let x = words::at_place(dst, 0, 0);
    let y = run.into_word(x, h);
    words::store_first(dst, y);
}

// Copies a run, to bit h of byte i and on, inside eight bytes: those from i on, or the last eight
// of dst where fewer are left there, or all of a dst that has fewer.
fn copy_part(dst: &mut [u8], i: usize, h: usize, run: Run<'_>)
    requires { (h + run.len ≤ 64) × (8 * i + h + run.len ≤ 8 * length dst.old) }
    ensures { Moved dst.old (8 * i + h)
        run.entry.bytes.now (run.entry.from + run.entry.skip) run.entry.len dst.new }
{
    if dst.len() < 8 {
        copy_in_few(dst, 8 * i + h, run);
        return;
    }
    let j = i.min(dst.len() - 8);
    copy_in_word(dst, j, 8 * (i - j) + h, run);
}

// Copies the first n words of a run, to the byte `to` and those behind it; the run has a bit behind
// them.
fn copy_words(dst: &mut [u8], to: usize, run: Run<'_>, n: usize)
    requires { (to + 8 * n ≤ length dst.old) × (64 * n < run.len) }
    ensures { Moved dst.old (8 * to)
        run.entry.bytes.now (run.entry.from + run.entry.skip) (64 * n) dst.new }
{
    let h = run.from % 8 + run.skip % 8;
    let i = run.from / 8 + run.skip / 8 + h / 8;
    for k in 0..n {
        let x = words::window_at(run.bytes, i + 8 * k, h);
        words::store(dst, to + 8 * k, x);
    }
}

// Copies a run that has bits, to the byte `to` and those behind it: words, and at least a bit of
// rest.
fn copy_rest(dst: &mut [u8], to: usize, run: Run<'_>)
    requires { (0 < run.len) × (8 * to + run.len ≤ 8 * length dst.old) }
    ensures { Moved dst.old (8 * to)
        run.entry.bytes.now (run.entry.from + run.entry.skip) run.entry.len dst.new }
{
    let n = (run.len - 1) / 64;
    copy_words(dst, to, run, n);
    copy_part(dst, to + 8 * n, 0, run.behind(64 * n));
}

// Copies a run to the bit `at` of dst and those behind it: into eight bytes, and on from there.
pub(crate) fn copy_inside(dst: &mut [u8], at: usize, run: Run<'_>)
    requires { at + run.len ≤ 8 * length dst.old }
    ensures { dst.new
        ≡ bits_copied dst.old at run.entry.bytes.now (run.entry.from + run.entry.skip) run.entry.len }
{
    let head = run.len.min(64 - at % 8);
    copy_part(dst, at / 8, at % 8, run.first(head));
    if head < run.len {
        copy_rest(dst, at / 8 + 8, run.behind(head));
    }
}
