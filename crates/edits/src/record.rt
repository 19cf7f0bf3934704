// The edit record: its edits, and the refusals 10 to 12. 10 and 11 read one window of 64 bits for each
// edit, and no key.
//     BITS    WHAT
//       10    count of edits
//        2    an edit's kind, and then its fields:
//                 0  Insert key pointer      256, 32
//                 1  Update position pointer  10, 32
//                 2  Keep start end           10, 10    end excluded
//                 3  malformed
//       ..    zero bits to the byte's end, and no byte more
// What it means: format's specs/Edit.antt, and specs/Record.antt.
ghost use Rattle.std.specs.Prelude.{true, not, ◌≡◌, ◌+◌, ◌*◌, ◌≤◌, ◌<◌, SomeIff, IfSome, length, drop};
ghost use Rattle.format.specs.Answer.{first};
ghost use Rattle.format.specs.Bits.{bits_of, fill};
ghost use Rattle.format.specs.Build.{edits_of};
ghost use Rattle.format.specs.Edit.{field_bits, padding, read_record, any_outside};
ghost use Rattle.format.specs.Refusals.{outcome_number};
ghost use Rattle.keys.specs.Keys.{key_bits};
ghost use Rattle.edits.specs.Record.{edit_meant, reach_of, formed_in, count_of, edit_at, span_at};
ghost use Rattle.edits.specs.Record.{HeadOf, inside_head, kind_number, read_tests};

use crate::edit::Edit;
use format::layout;
use format::refusal::Refusal;
use keys::Key;

// What an edit's first two bits say. Their number: `kind_number` of specs/Record.antt.
#[derive(Clone, Copy, Debug, PartialEq, Eq)]
enum Kind {
    Insert,
    Update,
    KeepChunk,
    Malformed,
}

impl Kind {
    // The kind that has a number of two bits.
    fn of(number: u64) -> Self
        requires { number < 4 }
        ensures answer { kind_number result ≡ number }
    {
        match number {
            0 => Kind::Insert,
            1 => Kind::Update,
            2 => Kind::KeepChunk,
            _ => Kind::Malformed,
        }
    }

    // How many bits of fields follow it.
    fn field_bits(self) -> usize
        ensures answer { (result ≡ field_bits (kind_number self)) × (result ≤ 288) }
    {
        match self {
            Kind::Insert => 288,
            Kind::Update => 42,
            _ => 20,
        }
    }
}

// The fields in an edit's first 44 bits: kind; position or start; end; pointer of an Update.
#[derive(Clone, Copy, Debug, PartialEq, Eq)]
struct Head {
    kind: Kind,
    place: usize,
    end: usize,
    pointer: u64,
}

// The head of the edit at bit p.
fn head_at(s: &[u8], p: usize) -> Head
    ensures answer { HeadOf (drop p (bits_of s.now)) result }
{
    let x = words::at_bit(s, p, 0);
    Head {
        kind: Kind::of(x / 0x4000000000000000),
        place: (x / 0x10000000000000 % 1024) as usize,
        end: (x / 0x40000000000 % 1024) as usize,
        pointer: x / 0x100000 % 0x100000000,
    }
}

// How many edits the record says that it has.
pub fn count(s: &[u8]) -> usize
    ensures answer { (result ≡ count_of s.now) × (result < 1024) }
{
    (words::at_bit(s, 0, 0) / 0x40000000000000) as usize
}

// How many bits the edit at bit p has; none where it is malformed or the record ends before it does.
fn span(s: &[u8], p: usize) -> Option<usize>
    requires { (length s.now ≤ 37085) × (p ≤ 8 * length s.now) }
    ensures answer { SomeIff result (0 < span_at (drop p (bits_of s.now)))
        (span_at (drop p (bits_of s.now))) }
    ensures within { IfSome result (λ size. p + size ≤ 8 * length s.now) }
{
    let left = 8 * s.len() - p;
    if left < 2 {
        return None;
    }
    let kind = head_at(s, p).kind;
    if kind == Kind::Malformed {
        return None;
    }
    let size = 2 + kind.field_bits();
    if left < size {
        return None;
    }
    Some(size)
}

// Whether nothing but padding stands from bit p on.
fn padded(s: &[u8], p: usize) -> bool
    requires { (length s.now ≤ 37085) × (p ≤ 8 * length s.now) }
    ensures answer { result ≡ padding (drop p (bits_of s.now)) }
{
    if 8 <= 8 * s.len() - p {
        return false;
    }
    words::at_bit(s, p, 0) == 0
}

// Whether the record is well-formed: refusal 10 is given where it is not.
pub fn formed(s: &[u8]) -> bool
    ensures answer { result ≡ formed_in (read_record s.now) }
{
    if s.len() < 2 {
        return false;
    }
    if layout::LONGEST_RECORD < s.len() {
        return false;
    }
    let n = count(s);
    let mut p = 10;
    for _ in 0..n {
        let Some(size) = span(s, p) else {
            return false;
        };
        p += size;
    }
    padded(s, p)
}

// Whether an edit's positions lie in a base of n entries.
fn inside(h: Head, n: usize) -> bool
    ensures answer { result ≡ inside_head n h }
{
    match h.kind {
        Kind::Insert => true,
        Kind::Update => h.place < n,
        _ => h.place < h.end && h.end <= n,
    }
}

// Whether all edits' positions lie in a base of n entries: refusal 11 is given where they do not.
fn all_inside(s: &[u8], n: usize) -> bool
    requires { formed_in (read_record s.now) ≡ true }
    ensures answer { result ≡ not (any_outside n (edits_of (read_record s.now))) }
{
    let mut p = 10;
    for _ in 0..count(s) {
        let h = head_at(s, p);
        if !inside(h, n) {
            return false;
        }
        p += 2 + h.kind.field_bits();
    }
    true
}

// What is wrong with a record over a base of n entries, if anything. Refused, in this order: 10, it
// is malformed; 11, a position that the base has not; 12, no edits.
pub fn check(s: &[u8], n: usize) -> Result<(), Refusal>
    ensures answer { outcome_number result ≡ first (read_tests n s.now) }
{
    if !formed(s) {
        return Err(Refusal::MalformedRecord);
    }
    if !all_inside(s, n) {
        return Err(Refusal::EditOutside);
    }
    if count(s) == 0 {
        return Err(Refusal::NoEdits);
    }
    Ok(())
}

// The key of the insert at bit p, with zeros past the record's end.
fn key_at(s: &[u8], p: usize) -> Key
    ensures answer { key_bits result ≡ fill 256 (drop (p + 2) (bits_of s.now)) }
{
    Key {
        a: words::at_bit(s, p, 2),
        b: words::at_bit(s, p, 66),
        c: words::at_bit(s, p, 130),
        d: words::at_bit(s, p, 194),
    }
}

// The edit at bit p, with zeros past the record's end.
pub fn edit_at(s: &[u8], p: usize) -> Edit
    ensures answer { (edit_meant result ≡ edit_at (drop p (bits_of s.now)))
        × (reach_of (edit_meant result) < 1024) }
{
    let h = head_at(s, p);
    match h.kind {
        Kind::Insert => {
            let pointer = words::at_bit(s, p, 258) / 0x100000000;
            Edit::Insert(key_at(s, p), pointer)
        }
        Kind::Update => Edit::Update(h.place, h.pointer),
        _ => Edit::KeepChunk(h.place, h.end),
    }
}
