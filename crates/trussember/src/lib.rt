// The static library: what a C program calls. Slices come as a pointer and a length, keys as a
// pointer to 32 bytes; lent memory must not overlap. Each call hands on to the crate that proves
// it, and tells its answer in numbers: document 01's number of the refusal, 0 for none. After a
// refusal lent memory is as it was. include/trussember.h says the same in C.
#![tactic(auto)]

pub mod answers;

ghost use Rattle.std.specs.Prelude.{◌≡◌};
ghost use Rattle.format.specs.Answer.{afterwards, refusal_of};
ghost use Rattle.format.specs.Bits.{bits_of, pack};
ghost use Rattle.format.specs.Build.{build};
ghost use Rattle.format.specs.Key.{separator_length, shared_bits};
ghost use Rattle.format.specs.Page.{check_page, read_entry};
ghost use Rattle.format.specs.Ranges.{bit_copy, rebuild_key, separate};
ghost use Rattle.format.specs.Refusals.{outcome_number};
ghost use Rattle.format.specs.Sizes.{body_size, stored_from_whole, whole_from_stored};
ghost use Rattle.node.specs.Reader.{key_bytes, pointer_read};
ghost use Rattle.trussember.specs.Told.{built_told, checked_told, entry_told, size_told};

use crate::answers::{Built, Checked, EntryRead, Size};
use format::refusal::Refusal;
use node::reader;

// The number of an outcome, 0 for what is done.
fn number(o: Result<(), Refusal>) -> u64
    ensures answer { result ≡ outcome_number o }
{
    match o {
        Ok(()) => 0,
        Err(why) => why.into(),
    }
}

// Checks a page: its header, or the first of 1 to 8 that holds.
#[unsafe(no_mangle)]
pub extern "C" fn trussember_check(page: &[u8]) -> Checked
    ensures answer { result ≡ checked_told (check_page page.now) }
{
    reader::check(page).into()
}

// Entry `index` of a page: its pointer, and its key into `key`. Refused with 1 to 8, then with 16.
#[unsafe(no_mangle)]
pub extern "C" fn trussember_entry(page: &[u8], index: usize, key: &mut [u8; 32]) -> EntryRead
    ensures answer { result ≡ entry_told (pointer_read (read_entry page.now index)) }
    ensures written { key.new
        ≡ afterwards (read_entry page.now index) key_bytes key.old }
{
    reader::entry(page, index, key).into()
}

// Builds a page from a base and an edit record, and the record that undoes it: n, m, q and bits of
// the page, and the undo record's length. A base of length 0 means no base. Refused with 1 to 15.
#[unsafe(no_mangle)]
pub extern "C" fn trussember_build(
    base: &[u8],
    record: &[u8],
    number: u32,
    page: &mut [u8],
    undo: &mut [u8],
) -> Built
    ensures answer { result
        ≡ built_told (build base.now «record».now number page.old
        undo.old).answer }
    ensures page { page.new
        ≡ (build base.now «record».now number page.old
        undo.old).page }
    ensures undo { undo.new
        ≡ (build base.now «record».now number page.old
        undo.old).undo }
{
    build::build(base, record, number, page, undo).into()
}

// Bit copy: the `bits` bits of dst from `dst_bit` on become those of src from `src_bit` on, and no
// other bit changes. Refused with 18.
#[unsafe(no_mangle)]
pub extern "C" fn trussember_bit_copy(
    dst: &mut [u8],
    dst_bit: usize,
    src: &[u8],
    src_bit: usize,
    bits: usize,
) -> u64
    ensures answer { result
        ≡ refusal_of (bit_copy dst.old dst_bit src.now src_bit bits) }
    ensures written { dst.new
        ≡ afterwards (bit_copy dst.old dst_bit src.now src_bit bits) (λ d. d)
        dst.old }
{
    number(bit_copy::bitwise_memcpy(dst, dst_bit, src, src_bit, bits))
}

// Separator length of a key.
#[unsafe(no_mangle)]
pub extern "C" fn trussember_separator_len(key: &[u8; 32]) -> u64
    ensures answer { result ≡ separator_length (bits_of key.now) }
{
    bit_ops::separator_len(key) as u64
}

// Shared bits of two keys.
#[unsafe(no_mangle)]
pub extern "C" fn trussember_prefix_len(a: &[u8; 32], b: &[u8; 32]) -> u64
    ensures answer { result ≡ shared_bits (bits_of a.now) (bits_of b.now) }
{
    bit_ops::prefix_len_by_words(a, b) as u64
}

// Separate a and b, a < b, into `out`. Refused with 17.
#[unsafe(no_mangle)]
pub extern "C" fn trussember_separate(a: &[u8; 32], b: &[u8; 32], out: &mut [u8; 32]) -> u64
    ensures answer { result
        ≡ refusal_of (separate (bits_of a.now) (bits_of b.now)) }
    ensures written { out.new
        ≡ afterwards (separate (bits_of a.now) (bits_of b.now)) (pack 32)
        out.old }
{
    number(bit_ops::separate(a, b, out))
}

// Key rebuilding into `out`, from `prefix_bits` bits of prefix and `bits` bits of separator from
// `start` on. Refused with 18, then with 19.
#[unsafe(no_mangle)]
pub extern "C" fn trussember_reconstruct_key(
    prefix: &[u8],
    prefix_bits: usize,
    separator: &[u8],
    start: usize,
    bits: usize,
    out: &mut [u8; 32],
) -> u64
    ensures answer { result
        ≡ refusal_of (rebuild_key prefix.now prefix_bits separator.now start bits) }
    ensures written { out.new
        ≡ afterwards
        (rebuild_key prefix.now prefix_bits separator.now start bits) (pack 32)
        out.old }
{
    number(bit_ops::reconstruct_key(prefix, prefix_bits, separator, start, bits, out))
}

// Body bytes of n entries with q prefix bits and stored lengths of `sum` bits. Refused with 19.
#[unsafe(no_mangle)]
pub extern "C" fn trussember_body_size(q: u64, sum: u64, n: u64) -> Size
    ensures answer { result ≡ size_told (body_size q sum n) }
{
    sizes::body_size(q as usize, sum as usize, n as usize).into()
}

// Whole lengths from the stored ones of n entries. Refused with 19.
#[unsafe(no_mangle)]
pub extern "C" fn trussember_uncompressed_separator_range_size(
    q: u64,
    sum: u64,
    n: u64,
    first: u64,
) -> Size
    ensures answer { result ≡ size_told (whole_from_stored q sum n first) }
{
    sizes::uncompressed_separator_range_size(
        q as usize,
        sum as usize,
        n as usize,
        first as usize,
    ).into()
}

// Stored lengths from whole ones, m of them compressed. Refused with 19.
#[unsafe(no_mangle)]
pub extern "C" fn trussember_compressed_separator_range_size(
    first: u64,
    m: u64,
    others: u64,
    q: u64,
) -> Size
    ensures answer { result ≡ size_told (stored_from_whole first m others q) }
{
    sizes::compressed_separator_range_size(
        first as usize,
        m as usize,
        others as usize,
        q as usize,
    ).into()
}
