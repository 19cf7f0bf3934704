// The checking reader of a page of 4,096 bytes: keys and pointers, the refusals 8 and 16. What a page
// holds, and the refusals before: `shape`. Entry i is the prefix, if i < m, its separator, and zero
// bits up to 256. Any bytes may come: nothing is read outside the page.
// What a page means: format's specs/Page.antt. What the answers mean: specs/Reader.antt.
ghost use Rattle.std.specs.Prelude.{◌≡◌, cond, not, ◌||◌, ◌+◌, ◌-◌, ◌*◌, ◌<◌, ◌≤◌, eqb, take};
ghost use Rattle.format.specs.Answer.{afterwards};
ghost use Rattle.format.specs.Bits.{fill, pack};
ghost use Rattle.format.specs.Key.{below};
ghost use Rattle.format.specs.Page.{
  body,
  check_page,
  end_of,
  entries,
  key_of,
  pointer_of,
  prefix_length,
  read_entry,
  start_of,
};
ghost use Rattle.keys.specs.Keys.{key_bits};
ghost use Rattle.rows.specs.Rows.{with_rows};
ghost use Rattle.shape.specs.Shape.{SizesFit, checked_answer, unordered};
ghost use Rattle.node.specs.Reader.{
  entry_answer,
  key_bytes,
  loaded,
  pointer_read,
};

use format::layout;
use format::refusal::Refusal;
use keys::Key;
use rows::table;
use rows::table::Row;
use shape::Header;

// A page that has the sizes that its header says.
#[derive(Clone, Copy)]
struct Page<'a> {
    bytes: &'a [u8],
    header: Header,
    ghost fits: { SizesFit bytes.now header },
}

// Where a separator stands in a page: its first bit, and how many it has.
#[derive(Clone, Copy)]
struct Separator {
    bit: usize,
    len: usize,
}

impl<'a> Page<'a> {
    // The pointer of entry i.
    fn node_pointer(self, i: usize) -> u64
        requires { i < self.header.n }
        ensures answer { result ≡ pointer_of self.entry.bytes.now i }
    {
        numbers::le_u32(self.bytes, layout::PAGE_SIZE - 4 * self.header.n + 4 * i)
    }

    // The prefix, and zeros.
    fn prefix(self) -> Key
        ensures answer { key_bits result
            ≡ fill 256 (take (prefix_length self.entry.bytes.now) (body self.entry.bytes.now)) }
    {
        let start = 8 * (layout::HEADER_SIZE + 2 * self.header.n);
        Key::zero().with_bits(0, self.bytes, start, self.header.q)
    }

    // The separator between two offsets.
    fn between(self, start: usize, end: usize) -> Separator
        requires { start < 65536 }
        ensures answer { (result.bit ≡ 8 * (10 + 2 * self.entry.header.n) + self.entry.header.q + start)
            × (result.len ≡ end - start) }
    {
        Separator {
            bit: 8 * (layout::HEADER_SIZE + 2 * self.header.n) + self.header.q + start,
            len: end.saturating_sub(start),
        }
    }

    // The key of entry i, out of the prefix and its separator, which starts and ends at two offsets.
    // For the loop over all entries, where most keys end in their first word.
    fn get_key(self, prefix: Key, i: usize, start: usize, end: usize) -> Key
        requires { (key_bits prefix
            ≡ fill 256 (take (prefix_length self.bytes.now) (body self.bytes.now)))
            × (start ≡ start_of self.bytes.now i) × (start < 65536)
            × (end ≡ end_of self.bytes.now i) }
        ensures answer { key_bits result ≡ key_of self.entry.bytes.now i }
    {
        let s = self.between(start, end);
        prefix.with_few_bits(shape::prefix_bits(self.header, i), self.bytes, s.bit, s.len)
    }

    // All entries into the rows of a table, with their positions. Refusal 8: whether the keys are not
    // strictly ascending.
    fn load_rows(self, t: &mut [Row]) -> bool
        ensures answer { result ≡ unordered (key_of self.entry.bytes.now) self.entry.header.n }
        ensures written { t.new ≡ with_rows t.old 0 (entries self.entry.bytes.now) }
    {
        let shared = self.prefix();
        let mut start = 0;
        let mut before = Key::zero();
        let mut found = false;
        for i in 0..self.header.n {
            let end = shape::cell(self.bytes, i);
            let key = self.get_key(shared, i, start, end);
            let pointer = self.node_pointer(i);
            table::set_row(
                t,
                i,
                Row {
                    key,
                    pointer,
                    source: i as u64,
                },
            );
            found = unrisen(i, before, key, found);
            start = end;
            before = key;
        }
        found
    }

    // The key of entry i into 32 bytes, and its pointer.
    fn copy_entry(self, i: usize, key_out: &mut [u8; 32]) -> u64
        requires { i < self.header.n }
        ensures answer { result ≡ pointer_of self.entry.bytes.now i }
        ensures written { key_out.new ≡ pack 32 (key_of self.entry.bytes.now i) }
    {
        let s = self.between(
            shape::start_offset(self.bytes, i),
            shape::cell(self.bytes, i),
        );
        let bits = shape::prefix_bits(self.header, i);
        let key = self.prefix().with_bits(bits, self.bytes, s.bit, s.len);
        key.to_bytes(key_out);
        self.node_pointer(i)
    }
}

// Whether key i is not above the one before it, if there is one, or one before it was not. Keys of a
// page differ, mostly in an early word: `<` takes less time for them than `less`.
fn unrisen(i: usize, before: Key, key: Key, found: bool) -> bool
    ensures answer { result
        ≡ cond (eqb i 0) found (not (below (key_bits before) (key_bits key)) || found) }
{
    found || 0 < i && !(before < key)
}

// Checks a page and puts its entries into the first rows of a table, each with its position; those
// past the table's last row are left out. Its header, or the first of 1 to 8 that holds, each tested
// over all entries before the next. The table is as it was after 1 to 7, and after 8 it has the
// entries.
pub fn load_page(page: &[u8], t: &mut [Row]) -> Result<Header, Refusal>
    ensures answer { checked_answer result ≡ check_page page.now }
    ensures written { t.new ≡ loaded page.now t.old }
{
    let header = shape::shaped(page)?;
    let sized = Page {
        bytes: page,
        header,
    };
    if sized.load_rows(t) {
        return Err(Refusal::KeysNotAscending);
    }
    Ok(header)
}

// Checks a page: its header, or the first of 1 to 8 that holds. As a page is loaded, into a table
// with no rows.
pub fn check(page: &[u8]) -> Result<Header, Refusal>
    ensures answer { checked_answer result ≡ check_page page.now }
{
    load_page(page, &mut [])
}

// Entry `index` of a page: its pointer, and its key into `key_out`. Refused with 1 to 8, then with
// 16 where the page has no such entry; `key_out` is then as it was.
pub fn entry(page: &[u8], index: usize, key_out: &mut [u8; 32]) -> Result<u64, Refusal>
    ensures answer { entry_answer result ≡ pointer_read (read_entry page.now index) }
    ensures written { key_out.new
        ≡ afterwards (read_entry page.now index) key_bytes key_out.old }
{
    let header = check(page)?;
    if header.n <= index {
        return Err(Refusal::IndexPastEnd);
    }
    let sized = Page {
        bytes: page,
        header,
    };
    Ok(sized.copy_entry(index, key_out))
}
