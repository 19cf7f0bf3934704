// The choice of the normal page, in one pass over its keys. Document 01, "The normal page", and
// refusal 14.
// With q the bits that the first and the m-th key share, the choice (m, q) saves
// (m - 2) q + min(length of the first, q) bits against whole lengths, and (1, 0) saves none.
// What it means: specs/Choice.antt; that it is `choice` for ascending keys: proofs/ChoiceLaws.antt.
ghost use Rattle.std.specs.Prelude.{◌≡◌, ◌+◌, ◌-◌, ◌*◌, ◌≤◌, min};
ghost use Rattle.format.specs.Normal.{keys};
ghost use Rattle.rows.specs.Rows.{rows};
ghost use Rattle.branch_ops.specs.Choice.{better, choice_answer, chosen_of};

use format::layout;
use format::refusal::Refusal;
use rows::table;
use rows::table::Row;

// How many entries leave the prefix out, its bits, and the bits of prefix and separators together.
#[derive(Clone, Copy, Debug, PartialEq, Eq)]
pub struct Choice {
    pub m: usize,
    pub q: usize,
    pub bits: usize,
}

// A choice, and how many bits it saves.
#[derive(Clone, Copy)]
struct Saving {
    m: usize,
    q: usize,
    bits: usize,
}

// What q bits of prefix save over the first i + 1 keys, of which the first is `first` bits long.
fn saved(i: usize, q: usize, first: usize) -> usize
    requires { (1 ≤ i) × (i ≤ 681) × (q ≤ 256) }
    ensures answer { result ≡ (i - 1) * q + min first q }
{
    (i - 1) * q + first.min(q)
}

// The choice that saves more; the second where both save alike.
fn better_of(c: Saving, d: Saving) -> Saving
    ensures answer { result ≡ better c d }
{
    if c.bits <= d.bits { d } else { c }
}

// The choice for the keys of t's first n rows; refused with 14 where its body bytes are over 4,086.
// Of no rows it is m = 1, q = 0, 0 bits.
pub fn choose(t: &[Row], n: usize) -> Result<Choice, Refusal>
    ensures answer { choice_answer result ≡ chosen_of (keys (rows n t.now)) }
{
    if layout::MOST_ENTRIES < n {
        return Err(Refusal::NoRoom);
    }
    if n == 0 {
        return Ok(Choice {
            m: 1,
            q: 0,
            bits: 0,
        });
    }
    let k0 = table::key_of(t, 0);
    let first = k0.separator_len();
    let mut total = first;
    let mut best = Saving {
        m: 1,
        q: 0,
        bits: 0,
    };
    for i in 1..n {
        let k = table::key_of(t, i);
        total += k.separator_len();
        let q = k0.prefix_len(k);
        let bits = saved(i, q, first);
        best = better_of(best, Saving { m: i + 1, q, bits });
    }
    let bits = total.saturating_sub(best.bits);
    if !shape::body_fits(n, 0, bits) {
        return Err(Refusal::NoRoom);
    }
    Ok(Choice {
        m: best.m,
        q: best.q,
        bits,
    })
}
