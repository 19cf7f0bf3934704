// The entries that the edits of a record make of a base's, laid into a table row by row while their
// keys rise. Each row's source is the entry's position in the base, or 1,024. Document 01, "Edit
// record", and the refusals 10 to 13.
// What it means: `apply` and `ascending` of format's specs/Edit.antt, and specs/Apply.antt.
#![tactic(auto)]

ghost use Rattle.std.specs.Prelude.{true, ◌≡◌, ◌+◌, ◌-◌, ◌^◌, ◌≤◌, ◌<◌, IfSome};
ghost use Rattle.format.specs.Build.{edits_of};
ghost use Rattle.format.specs.Edit.{read_record};
ghost use Rattle.keys.specs.Keys.{key_bits};
ghost use Rattle.rows.specs.Rows.{rows};
ghost use Rattle.edits.specs.Record.{edit_meant, formed_in, reach_of};
ghost use Rattle.apply.specs.Apply.{edited_answer, new_count, new_table};
ghost use Rattle.apply.specs.Apply.{laying, starting, follows, lay_one, pass};
ghost use Rattle.apply.specs.Apply.{Left, item_of, run, items_of, items_in};

use edits::edit::Edit;
use edits::record;
use format::refusal::Refusal;
use keys::Key;
use rows::table;
use rows::table::Row;

// The source of an entry that is not the base's: no position has this number.
const NONE: u64 = 1024;

// How many entries are laid, and the key of the last. None is where a key did not rise.
#[derive(Clone, Copy)]
struct State {
    n: usize,
    last: Key,
}

impl State {
    // Whether a key may come next: it is the first, or above the last.
    fn may_follow(self, k: Key) -> bool
        ensures answer { result ≡ follows self.n (key_bits self.last) (key_bits k) }
    {
        self.n == 0 || self.last.less(k)
    }

    // One entry more, into row n; where it does not rise, the table is left as it is.
    fn lay(self, row: Row, t: &mut [Row]) -> Option<State>
        requires { self.n < 2 ^ 40 }
        ensures answer { Left t.new result (lay_one (laying t.old self) (item_of row)) }
        ensures most { IfSome result (λ l. l.n ≤ self.n + 1) }
    {
        if !self.may_follow(row.key) {
            return None;
        }
        table::set_row(t, self.n, row);
        Some(State {
            n: self.n + 1,
            last: row.key,
        })
    }

    // The base's entries from a up to e, e excluded; it stops at one that does not rise.
    fn lay_run(self, base: &[Row], a: usize, e: usize, t: &mut [Row]) -> Option<State>
        requires { (self.n < 2 ^ 30) × (e ≤ 1024) }
        ensures answer { Left t.new result (pass (laying t.old self) (run base.now a (e - a))) }
        ensures most { IfSome result (λ l. l.n ≤ self.n + 1024) }
    {
        let mut l = self;
        for i in a..e {
            let key = table::key_of(base, i);
            let pointer = table::pointer_of(base, i);
            let source = i as u64;
            l = l.lay(
                Row {
                    key,
                    pointer,
                    source,
                },
                t,
            )?;
        }
        Some(l)
    }

    // The entries that one edit makes.
    fn lay_edit(self, e: Edit, base: &[Row], t: &mut [Row]) -> Option<State>
        requires { (self.n < 2 ^ 30) × (reach_of (edit_meant e) < 1024) }
        ensures answer { Left t.new result
            (pass (laying t.old self) (items_of base.now (edit_meant e))) }
        ensures most { IfSome result (λ l. l.n ≤ self.n + 1024) }
    {
        match e {
            Edit::Insert(key, pointer) => {
                let source = NONE;
                self.lay(
                    Row {
                        key,
                        pointer,
                        source,
                    },
                    t,
                )
            }
            Edit::Update(place, pointer) => {
                let key = table::key_of(base, place);
                let source = place as u64;
                self.lay(
                    Row {
                        key,
                        pointer,
                        source,
                    },
                    t,
                )
            }
            Edit::KeepChunk(a, b) => self.lay_run(base, a, b, t),
        }
    }
}

// The entries of all edits in order; it stops at one that does not rise.
fn lay_all(s: &[u8], base: &[Row], t: &mut [Row]) -> Option<State>
    requires { formed_in (read_record s.now) ≡ true }
    ensures answer { Left t.new result
        (pass (starting t.old) (items_in base.now (edits_of (read_record s.now)))) }
{
    let mut l = State {
        n: 0,
        last: Key::zero(),
    };
    let mut p = 10;
    for _ in 0..record::count(s) {
        let e = record::edit_at(s, p);
        l = l.lay_edit(e, base, t)?;
        p += e.size();
    }
    Some(l)
}

// The entries that the record s makes of a base's first n rows, laid into t from row 0 on, each
// with its position in the base, and how many they are; those past t's last row are tested and
// counted, and not stored. Refused, in this order: 10, the record is malformed; 11, a position that
// the base has not; 12, no edits; 13, a key that is not above the one before it. With 10 to 12 t is
// as it was; with 13 it has the entries before that key.
pub fn edit_rows(s: &[u8], base: &[Row], n: usize, t: &mut [Row]) -> Result<usize, Refusal>
    ensures answer { edited_answer result
        ≡ new_count (rows n base.now) s.now }
    ensures written { t.new
        ≡ new_table (rows n base.now) s.now t.old }
{
    record::check(s, n)?;
    let Some(l) = lay_all(s, base, t) else {
        return Err(Refusal::NewKeysNotAscending);
    };
    Ok(l.n)
}
