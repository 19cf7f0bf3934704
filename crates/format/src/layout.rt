// The sizes that document 01 fixes: of a page, in bytes, and of an edit record.

// A page.
pub const PAGE_SIZE: usize = 4096;

// Page number, n, m and q.
pub const HEADER_SIZE: usize = 10;

// The rest: end offsets, prefix, separators, pointers.
pub const BODY_SIZE: usize = 4086;

// The most entries that a page can have: each takes six bytes of its body.
pub const MOST_ENTRIES: usize = 681;

// The most edits that a record can have.
pub const MOST_EDITS: usize = 1023;

// The bytes of the longest record: so many inserts.
pub const LONGEST_RECORD: usize = 37085;
