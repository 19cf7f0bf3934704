// The cases of the sample, as tools/sample.py writes it: how many there are, in four bytes, and
// then each: its operation, in one, how many bytes follow, in four, and its fields, each with its
// length before it, in four. Numbers are little-endian; a field that is one has eight bytes.
ghost use Rattle.std.specs.Prelude.{◌≤◌, length};

use crate::operation::Operation;
use format::refusal::Refusal;
use std::fs::File;
use std::io;
use std::io::Read;

// How many cases the file has, by its first bytes.
pub(crate) fn how_many(file: &mut File) -> io::Result<u32> {
    let mut head = [0u8; 4];
    file.read_exact(&mut head)?;
    Ok(u32::from_le_bytes(head))
}

// The fields of a case, one after the other.
#[derive(Clone, Copy)]
pub(crate) struct Fields<'a> {
    bytes: &'a [u8],
}

// A case that has been read.
#[derive(Clone, Copy)]
pub(crate) struct Case<'a> {
    pub op: Operation,
    pub fields: Fields<'a>,
}

// Reads the next case, its fields to the start of buf. There is none where the file ends before it
// does, where buf has no room for its fields, or where no operation has its number.
pub(crate) fn read<'a>(file: &mut File, buf: &'a mut [u8]) -> Option<Case<'a>> {
    let mut head = [0u8; 5];
    file.read_exact(&mut head).ok()?;
    let [op, a, b, c, d] = head;
    let size = u32::from_le_bytes([a, b, c, d]) as usize;
    let bytes = buf.get_mut(..size)?;
    file.read_exact(bytes).ok()?;
    let op = Operation::try_from(op).ok()?;
    Some(Case {
        op,
        fields: Fields { bytes },
    })
}

// The first field of s, and what follows it; none where s ends before its end.
fn split_field(s: &[u8]) -> Option<(&[u8], &[u8])> {
    let (len, rest) = s.split_first_chunk::<4>()?;
    rest.split_at_checked(u32::from_le_bytes(*len) as usize)
}

impl<'a> Fields<'a> {
    // Field k, counted from 0, if there are so many.
    fn find(self, k: usize) -> Option<&'a [u8]> {
        let mut rest = self.bytes;
        for _ in 0..k {
            rest = split_field(rest)?.1;
        }
        Some(split_field(rest)?.0)
    }

    // Field k; no bytes where there is none.
    pub(crate) fn get(self, k: usize) -> &'a [u8] {
        self.find(k).unwrap_or(&[])
    }

    // The number in field k, if that has eight bytes.
    pub(crate) fn number(self, k: usize) -> Option<u64> {
        let bytes = <[u8; 8]>::try_from(self.get(k)).ok()?;
        Some(u64::from_le_bytes(bytes))
    }

    // The number in field k as a size or a place in memory, and the largest there is where it is none.
    pub(crate) fn size(self, k: usize) -> usize {
        self.number(k).map_or(usize::MAX, |n| n as usize)
    }

    // The key that field k begins with, if that has so many bytes.
    pub(crate) fn key(self, k: usize) -> Option<[u8; 32]> {
        self.get(k).first_chunk::<32>().copied()
    }

    // Puts the bytes of field k at the start of out, as many as it has room for, and answers how
    // many.
    pub(crate) fn load(self, k: usize, out: &mut [u8]) -> usize
        ensures { result ≤ length out.new }
    {
        let f = self.get(k);
        let n = f.len().min(out.len());
        out[..n].copy_from_slice(&f[..n]);
        n
    }

    // Whether an answer is that of the case: field k has the refusal's number, 0 where there is none,
    // and then what was answered is as it should be.
    pub(crate) fn answers<T: Drop, F: FnOnce(T) -> bool>(
        self,
        k: usize,
        answer: Result<T, Refusal>,
        agrees: F,
    ) -> bool
        requires { F.IsAlwaysCallable agrees }
    {
        match answer {
            Ok(x) => self.number(k) == Some(0) && agrees(x),
            Err(why) => self.number(k) == Some(u64::from(why)),
        }
    }
}
