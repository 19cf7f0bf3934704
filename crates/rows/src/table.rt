// Entries as rows of a lent table. Past the table's end a row reads as zeros, and a row that the
// table has not is not stored. What a table holds: specs/Rows.antt.
ghost use Rattle.std.specs.Prelude.{◌≡◌, get_or};
ghost use Rattle.keys.specs.Keys.{key_bits};
ghost use Rattle.rows.specs.Rows.{row_key, row_pointer, row_source, with_row, zero_row};

use keys::Key;

// An entry and its position in the base; by default zeros.
#[derive(Clone, Copy, Debug, Default, PartialEq, Eq)]
pub struct Row {
    pub key: Key,
    pub pointer: u64,
    pub source: u64,
}

// Row i.
#[tactic(auto, unfolding(crate::specs::Rows::zero_row))]
pub fn row_at(t: &[Row], i: usize) -> Row
    ensures answer { result ≡ get_or t.now i zero_row }
{
    t.get(i).copied().unwrap_or_default()
}

// The key of row i.
#[tactic(auto, unfolding(crate::specs::Rows::row_key, crate::specs::Rows::zero_row))]
pub fn key_of(t: &[Row], i: usize) -> Key
    ensures answer { key_bits result ≡ row_key t.now i }
{
    match t.get(i) {
        Some(row) => row.key,
        None => Key::default(),
    }
}

// The pointer of row i.
#[tactic(auto, unfolding(crate::specs::Rows::row_pointer, crate::specs::Rows::zero_row))]
pub fn pointer_of(t: &[Row], i: usize) -> u64
    ensures answer { result ≡ row_pointer t.now i }
{
    t.get(i).map_or(0, |row| row.pointer)
}

// The position in the base of row i.
#[tactic(auto, unfolding(crate::specs::Rows::row_source, crate::specs::Rows::zero_row))]
pub fn source_of(t: &[Row], i: usize) -> u64
    ensures answer { result ≡ row_source t.now i }
{
    t.get(i).map_or(0, |row| row.source)
}

// An entry and its position in the base into row i; nothing where the table has no such row.
#[tactic(auto, using(crate::proofs::RowsLaws::set_row_in, crate::proofs::RowsLaws::set_row_out))]
pub fn set_row(t: &mut [Row], i: usize, row: Row)
    ensures written { t.new ≡ with_row t.old i
        (record { key = key_bits row.key; pointer = row.pointer }) row.source }
{
    if i < t.len() {
        t[i] = row;
    }
}
