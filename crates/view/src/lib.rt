// BranchNodeView: a page's slice held in a struct, and an entry read through it. Document 01,
// "`BranchNodeView` holds the page's slice". It is thin over `read_at`, which takes the slice itself;
// `read_entry` goes by way of it, and has plain parameters for every other caller.
// What the answers mean: specs/Seen.antt.
#![tactic(auto)]

ghost use Rattle.std.specs.Prelude.{◌≡◌};
ghost use Rattle.format.specs.Page.{read_entry};
ghost use Rattle.view.specs.Seen.{seen_answer};

use format::refusal::Refusal;
use keys::Key;
use node::reader;

// Entry `index` of a page, its key and pointer; refused with 1 to 8, then with 16 where the page has no such entry.
pub fn read_at(page: &[u8], index: usize) -> Result<(Key, u64), Refusal>
    ensures answer { seen_answer result ≡ read_entry page.now index }
{
    let mut key = [0u8; 32];
    let pointer = reader::entry(page, index, &mut key)?;
    Ok((Key::from_bytes(&key), pointer))
}

// A page, by its bytes. Any bytes will do: they are checked when an entry is read.
#[derive(Clone, Copy)]
pub struct BranchNodeView<'a> {
    pub inner: &'a [u8],
}

impl<'a> BranchNodeView<'a> {
    // The view of a slice.
    pub fn from_slice(inner: &'a [u8]) -> BranchNodeView<'a>
        ensures answer { result.inner ≡ inner.entry }
    {
        BranchNodeView { inner }
    }

    // Entry `index` of the page, as `read_at` has it.
    pub fn entry(self, index: usize) -> Result<(Key, u64), Refusal>
        ensures answer { seen_answer result ≡ read_entry self.entry.inner.now index }
    {
        read_at(self.inner, index)
    }
}

// Entry `index` of a page, through its view.
pub fn read_entry(page: &[u8], index: usize) -> Result<(Key, u64), Refusal>
    ensures answer { seen_answer result ≡ read_entry page.now index }
{
    BranchNodeView::from_slice(page).entry(index)
}
