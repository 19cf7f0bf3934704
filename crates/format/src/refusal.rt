// The refusals of document 01, a case for each, named by its cause: what a `Result` of this project
// has for its error. Its number: `refusal_number` of specs/Refusals.antt.
ghost use Rattle.std.specs.Prelude.{◌≡◌};
ghost use Rattle.format.specs.Refusals.{refusal_number};

use std::error::Error;
use std::fmt;

#[derive(Clone, Copy, Debug, PartialEq, Eq, Hash)]
pub enum Refusal {
    // 1: the page's length is not 4,096.
    PageLength,
    // 2: n = 0.
    NoEntries,
    // 3: m = 0 or m > n.
    CompressedCount,
    // 4: q > 256.
    PrefixLength,
    // 5: 6n > 4,086, or body bytes with the last end offset > 4,086.
    BodyTooLong,
    // 6: an end offset below the one before.
    OffsetsFall,
    // 7: an entry whose bits are 0 or over 256.
    EntryBits,
    // 8: the page's keys are not strictly ascending.
    KeysNotAscending,
    // 9: the output page is not 4,096 bytes.
    OutputLength,
    // 10: the edit record is short, has a kind 3, extra bytes or nonzero padding.
    MalformedRecord,
    // 11: an Update's position or a Keep's range that the base does not have.
    EditOutside,
    // 12: the record has no edits.
    NoEdits,
    // 13: the new keys are not strictly ascending.
    NewKeysNotAscending,
    // 14: no permitted choice has body bytes of at most 4,086.
    NoRoom,
    // 15: the undo buffer is shorter than the undo record.
    UndoTooShort,
    // 16: the entry index is n or more.
    IndexPastEnd,
    // 17: separate with a >= b.
    NotBelow,
    // 18: a bit range outside its slice.
    RangeOutside,
    // 19: more than 256 bits for a key, or a size below zero or past 64 bits.
    Unrepresentable,
}

// Document 01's number.
impl From<Refusal> for u64 {
    ghost from_gives = { λ why n. n ≡ refusal_number why };

    fn from(why: Refusal) -> u64 {
        match why {
            Refusal::PageLength => 1,
            Refusal::NoEntries => 2,
            Refusal::CompressedCount => 3,
            Refusal::PrefixLength => 4,
            Refusal::BodyTooLong => 5,
            Refusal::OffsetsFall => 6,
            Refusal::EntryBits => 7,
            Refusal::KeysNotAscending => 8,
            Refusal::OutputLength => 9,
            Refusal::MalformedRecord => 10,
            Refusal::EditOutside => 11,
            Refusal::NoEdits => 12,
            Refusal::NewKeysNotAscending => 13,
            Refusal::NoRoom => 14,
            Refusal::UndoTooShort => 15,
            Refusal::IndexPastEnd => 16,
            Refusal::NotBelow => 17,
            Refusal::RangeOutside => 18,
            Refusal::Unrepresentable => 19,
        }
    }
}

// Document 01's words.
impl fmt::Display for Refusal {
    fn fmt<W: fmt::Write>(&self, f: &mut fmt::Formatter<W>) -> fmt::Result {
        f.write_str(match self {
            Refusal::PageLength => "page length not 4,096 (build also takes 0)",
            Refusal::NoEntries => "n = 0",
            Refusal::CompressedCount => "m = 0 or m > n",
            Refusal::PrefixLength => "q > 256",
            Refusal::BodyTooLong => "6n > 4,086, or body bytes with the last end offset > 4,086",
            Refusal::OffsetsFall => "an end offset below the one before",
            Refusal::EntryBits =>
                "an entry whose bits (q if compressed, plus separator) are 0 or over 256",
            Refusal::KeysNotAscending => "keys not strictly ascending",
            Refusal::OutputLength => "output page not 4,096 bytes",
            Refusal::MalformedRecord =>
                "malformed edit record: short, kind 3, extra bytes, nonzero padding",
            Refusal::EditOutside =>
                "Update position >= n of the base; Keep with start >= end or end > n",
            Refusal::NoEdits => "no edits",
            Refusal::NewKeysNotAscending => "new keys not strictly ascending",
            Refusal::NoRoom => "no permitted choice has body bytes <= 4,086",
            Refusal::UndoTooShort => "undo buffer shorter than the undo record",
            Refusal::IndexPastEnd => "entry index >= n (after 1-8)",
            Refusal::NotBelow => "separate with a >= b",
            Refusal::RangeOutside => "bit range outside its slice",
            Refusal::Unrepresentable =>
                "more than 256 bits for a key; a size formula that cannot be answered",
        })
    }
}

impl Error for Refusal {}
