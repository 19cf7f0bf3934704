// One edit. What it means: `edit_meant` of specs/Record.antt.
ghost use Rattle.std.specs.Prelude.{◌≡◌, ◌≤◌, length};
ghost use Rattle.format.specs.Edit.{edit_bits};
ghost use Rattle.edits.specs.Record.{edit_meant};

use keys::Key;
use std::fmt;

#[derive(Clone, Copy, Debug, PartialEq, Eq)]
pub enum Edit {
    // A key and its pointer.
    Insert(Key, u64),
    // A position in the base, and its new pointer.
    Update(usize, u64),
    // The base's positions from the first up to the second, which is excluded.
    KeepChunk(usize, usize),
}

impl Edit {
    // How many bits an edit takes in a record.
    pub fn size(self) -> usize
        ensures answer { (result ≡ length (edit_bits (edit_meant self))) × (result ≤ 290) }
    {
        match self {
            Edit::Insert(_, _) => 290,
            Edit::Update(_, _) => 44,
            Edit::KeepChunk(_, _) => 22,
        }
    }
}

// Its kind and its fields.
impl fmt::Display for Edit {
    fn fmt<W: fmt::Write>(&self, f: &mut fmt::Formatter<W>) -> fmt::Result {
        match self {
            Edit::Insert(key, pointer) => write!(f, "insert {key} {pointer}"),
            Edit::Update(place, pointer) => write!(f, "update {place} {pointer}"),
            Edit::KeepChunk(start, end) => write!(f, "keep {start} {end}"),
        }
    }
}
