// The undo record: the edits that make a base's entries out of the new ones, written in one walk
// over both. Document 01, "Undo record".
// What it means: `undo_edits` of format's specs/Undo.antt, and specs/Walk.antt; that the walk makes
// those edits where both tables' keys rise: `walk-undo_edits` of proofs/WalkLaws.antt.
#![tactic(auto)]

ghost use Rattle.std.specs.Prelude.{◌≡◌, drop, ◌+◌, ◌^◌, ◌<◌};
ghost use Rattle.keys.specs.Keys.{key_bits};
ghost use Rattle.rows.specs.Rows.{row_entry, rows};
ghost use Rattle.edits.specs.Record.{edit_meant};
ghost use Rattle.branch_ops.specs.Writer.{record_in};
ghost use Rattle.undo.specs.Walk.{closed, kept, othered, skipped, stepped, undo_size, walk, walking, writing_of};

use branch_ops::writer::RecordWriter;
use edits::edit::Edit;
use keys::Key;
use rows::table::{self, Row};

// The first of k rows, from `at` on, whose key is not below a key; k or `at` where there is none.
#[tactic(auto, using(crate::proofs::WalkingLaws::passing))]
fn skip(new: &[Row], k: usize, at: usize, key: Key) -> usize
    ensures answer { result ≡ skipped (key_bits key) at (drop at (rows k new.now)) }
{
    for j in at..k {
        if !table::key_of(new, j).less(key) {
            return j;
        }
    }
    at.max(k)
}

// How far the walk has come: what is written, the position in the new rows, and where the run of
// kept rows that is still open, if there is one, starts and ends.
#[derive(Clone, Copy)]
struct Walk {
    writer: RecordWriter,
    at: usize,
    run: Option<(usize, usize)>,
}

impl Walk {
    // The writer after the open run has been written, if there is one.
    #[tactic(auto, unfolding(crate::specs::Walk::walking, crate::specs::Walk::run_written, branch_ops::specs::Writer::pushed_all))]
    fn close(self, out: &mut [u8]) -> RecordWriter
        ensures answer { writing_of result out.new ≡ closed (walking self out.old) }
    {
        match self.run {
            Some((start, end)) => self.writer.push(out, Edit::KeepChunk(start, end)),
            None => self.writer,
        }
    }

    // Row j of the new ones is kept: the open run grows by it, or a new one begins there.
    #[tactic(auto, unfolding(crate::specs::Walk::walking, crate::specs::Walk::kept_behind))]
    fn keep(self, j: usize, out: &mut [u8]) -> Self
        requires { j + 1 < 2 ^ 64 }
        ensures answer { walking result out.new ≡ kept (walking self out.old) j }
    {
        match self.run {
            Some((start, end)) if end == j => Walk {
                writer: self.writer,
                at: j + 1,
                run: Some((start, j + 1)),
            },
            _ => Walk {
                writer: self.close(out),
                at: j + 1,
                run: Some((j, j + 1)),
            },
        }
    }

    // Another edit comes: behind the open run.
    #[tactic(auto, unfolding(crate::specs::Walk::walking, branch_ops::specs::Writer::pushed_all))]
    fn write(self, at: usize, e: Edit, out: &mut [u8]) -> Self
        ensures answer { walking result out.new ≡ othered (walking self out.old) at (edit_meant e) }
    {
        Walk {
            writer: self.close(out).push(out, e),
            at,
            run: None,
        }
    }

    // The edit that brings row i of the base back.
    #[tactic(auto, using(crate::proofs::WalkingLaws::stepping))]
    fn step(self, base: &[Row], i: usize, new: &[Row], k: usize, out: &mut [u8]) -> Self
        ensures answer { walking result out.new
            ≡ stepped (walking self out.old) (row_entry base.now i) (rows k new.now) }
    {
        let Row { key, pointer, .. } = table::row_at(base, i);
        let j = skip(new, k, self.at, key);
        if k <= j || key.less(table::key_of(new, j)) {
            return self.write(j, Edit::Insert(key, pointer), out);
        }
        if table::pointer_of(new, j) == pointer {
            return self.keep(j, out);
        }
        self.write(j + 1, Edit::Update(j, pointer), out)
    }
}

// Writes the record that makes the first n rows of the base out of the first k new ones, and answers
// its length: edits that have no room are left out, as the record writer does.
#[tactic(auto, using(crate::proofs::WrittenLaws::turns))]
pub fn write_undo(base: &[Row], n: usize, new: &[Row], k: usize, out: &mut [u8]) -> usize
    ensures answer { result
        ≡ undo_size out.old (walk (rows n base.now) 0 (rows k new.now)) }
    ensures written { out.new
        ≡ record_in out.old (walk (rows n base.now) 0 (rows k new.now)) }
{
    let mut w = Walk {
        writer: RecordWriter::new(),
        at: 0,
        run: None,
    };
    for i in 0..n {
        w = w.step(base, i, new, k, out);
    }
    w.close(out).finish(out)
}
