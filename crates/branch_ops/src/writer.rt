// The writer of an edit record: a state by value, and a buffer that is lent to each call. Edits are
// written one behind the other, and the count and the padding at the end.
// What it means: specs/Writer.antt; that the bytes are `record_of` of the edits: `holds-finish` of
// proofs/WriterLaws.antt.
ghost use Rattle.std.specs.Prelude.{◌++◌, ◌≡◌, ◌+◌, ◌*◌, ◌^◌, ◌≤◌, ◌<◌, length};
ghost use Rattle.format.specs.Bits.{bits, bytes_for};
ghost use Rattle.format.specs.Edit.{edit_bits};
ghost use Rattle.keys.specs.Keys.{key_bits};
ghost use Rattle.edits.specs.Record.{edit_meant};
ghost use Rattle.branch_ops.specs.Writer.{starting_writer, pushed_writer, pushed_bytes};
ghost use Rattle.branch_ops.specs.Writer.{finished_bytes, with_bits};

use edits::edit::Edit;
use format::layout;
use keys::Key;
use parts::bits;

// The 44 bits of an Update as a number: its kind, ten bits of position, 32 of pointer.
fn update_number(i: usize, pointer: u64) -> u64
    ensures answer { bits 44 result ≡ bits 2 1 ++ bits 10 i ++ bits 32 pointer }
{
    (1024 + (i % 1024) as u64) * 0x100000000 + pointer % 0x100000000
}

// The 22 bits of a KeepChunk as a number: its kind, and ten bits of each position.
fn keep_number(a: usize, b: usize) -> u64
    ensures answer { bits 22 result ≡ bits 2 2 ++ bits 10 a ++ bits 10 b }
{
    ((2048 + a % 1024) * 1024 + b % 1024) as u64
}

// An Insert from bit p on: its kind, its key, 32 bits of pointer.
fn put_insert(d: &mut [u8], p: usize, k: Key, pointer: u64)
    requires { (p + 290 ≤ 8 * length d.old) × (p < 2 ^ 30) }
    ensures written { d.new
        ≡ with_bits d.old p (bits 2 0 ++ key_bits k ++ bits 32 pointer) }
{
    bits::put_number(d, p, 2, 0);
    bits::put_key(d, p + 2, k, 0, 256);
    bits::put_number(d, p + 258, 32, pointer);
}

// An edit from bit p on.
fn put_edit(d: &mut [u8], p: usize, e: Edit)
    requires { (p + length (edit_bits (edit_meant e)) ≤ 8 * length d.old) × (p < 2 ^ 30) }
    ensures written { d.new
        ≡ with_bits d.old p (edit_bits (edit_meant e)) }
{
    match e {
        Edit::Insert(k, pointer) => put_insert(d, p, k, pointer),
        Edit::Update(i, pointer) => bits::put_number(d, p, 44, update_number(i, pointer)),
        Edit::KeepChunk(a, b) => bits::put_number(d, p, 22, keep_number(a, b)),
    }
}

// How many edits are written, and the bit behind the last.
#[derive(Clone, Copy, Debug, PartialEq, Eq)]
pub struct RecordWriter {
    pub edits: usize,
    pub bit: usize,
}

impl RecordWriter {
    // A writer that has written no edit; ten bits are left for the count.
    pub fn new() -> Self
        ensures answer { result ≡ starting_writer }
    {
        RecordWriter { edits: 0, bit: 10 }
    }

    // One edit more, behind the others. Where there are 1,023 already, or the edit would end past
    // the buffer or the longest record, nothing is written and the writer is as it was.
    pub fn push(self, d: &mut [u8], e: Edit) -> Self
        ensures answer { result ≡ pushed_writer self d.old (edit_meant e) }
        ensures written { d.new ≡ pushed_bytes self d.old (edit_meant e) }
    {
        if layout::MOST_EDITS <= self.edits {
            return self;
        }
        let size = e.size();
        if d.len().min(layout::LONGEST_RECORD) < numbers::bytes_for(self.bit, size) {
            return self;
        }
        put_edit(d, self.bit, e);
        RecordWriter {
            edits: self.edits + 1,
            bit: self.bit + size,
        }
    }

    // The record's length; the count is written into the first ten bits, and zeros behind the last
    // edit up to the byte's end. Nothing is written where the record would end past the buffer or
    // the longest record.
    pub fn finish(self, d: &mut [u8]) -> usize
        ensures answer { result ≡ bytes_for self.bit }
        ensures written { d.new ≡ finished_bytes self d.old }
    {
        let size = numbers::bytes_for(self.bit, 0);
        let room = d.len().min(layout::LONGEST_RECORD);
        if room < 2 {
            return size;
        }
        if room < size {
            return size;
        }
        bits::put_number(d, self.bit, 8 * size - self.bit, 0);
        bits::put_number(d, 0, 10, self.edits as u64);
        size
    }
}
