// Files by the arguments that name them.
ghost use Rattle.std.specs.Prelude.{◌≤◌, length};

use crate::tell::Failure;
use std::env::FillError;
use std::fs::OpenFile;
use std::io::{ErrorKind, Read, Write};
use std::rt::{Env, Files};
use std::{fmt, fs, io, str};

// How many bytes an argument may have.
pub(crate) const ARGUMENT_ROOM: usize = 4096;

// Why a file was not read or not written.
#[derive(Drop)]
pub(crate) enum FileError {
    // Its name has no bytes.
    NoName,
    // Its name is not text, which each path of std's is.
    NotText,
    // It did not end where the reading did.
    NotEnded,
    // What the system says.
    System(io::Error),
}

impl fmt::Display for FileError {
    fn fmt<W: fmt::Write>(&self, f: &mut fmt::Formatter<W>) -> fmt::Result {
        match self {
            FileError::NoName => f.write_str("not a file's name"),
            FileError::NotText => f.write_str("not a file's name in UTF-8"),
            FileError::NotEnded => f.write_str("not read to its end"),
            FileError::System(why) => write!(f, "{why}"),
        }
    }
}

impl From<io::Error> for FileError {
    fn from(why: io::Error) -> FileError {
        FileError::System(why)
    }
}

// Argument i, which is put at the start of buf.
pub(crate) fn argument<'b>(
    rt: &impl Env,
    i: usize,
    buf: &'b mut [u8],
) -> Result<&'b [u8], FillError> {
    let n = rt.arg(i, buf)?;
    Ok(&buf[..n])
}

// Whether two arguments are one name; one that is missing or too long counts as an empty one.
pub(crate) fn same_names(rt: &impl Env, i: usize, j: usize) -> bool {
    let mut a = [0u8; ARGUMENT_ROOM];
    let mut b = [0u8; ARGUMENT_ROOM];
    argument(rt, i, &mut a).unwrap_or(&[]) == argument(rt, j, &mut b).unwrap_or(&[])
}

// A name as a path.
fn as_path(name: &[u8]) -> Result<&str, FileError> {
    if name.is_empty() {
        return Err(FileError::NoName);
    }
    str::from_utf8(name).map_err(|_| FileError::NotText)
}

// Reads until buf is full, the file ends or a read fails, and answers how many bytes it put at the
// start of buf.
fn read_full(file: &mut impl Read, buf: &mut [u8]) -> usize
    ensures { result ≤ length buf.new }
{
    let mut done = 0;
    while done < buf.len() {
        match file.read(&mut buf[done..]) {
            Ok(n) if 0 < n => done += n,
            _ => break,
        }
    }
    done
}

// Whether nothing is left of a file.
fn ended(file: &mut impl Read) -> io::Result<bool> {
    let mut one = [0u8; 1];
    Ok(file.read(&mut one)? == 0)
}

fn read_path<'b>(rt: &impl Files, name: &[u8], buf: &'b mut [u8]) -> Result<&'b [u8], FileError> {
    let mut file = fs::open(rt, as_path(name)?)?;
    let n = read_full(&mut file, buf);
    if n < buf.len() && !ended(&mut file)? {
        return Err(FileError::NotEnded);
    }
    Ok(&buf[..n])
}

// The bytes of the file that argument i names, as far as buf has room.
pub(crate) fn read<'b>(
    rt: &(impl Env + Files),
    i: usize,
    buf: &'b mut [u8],
) -> Result<&'b [u8], Failure> {
    let mut name = [0u8; ARGUMENT_ROOM];
    read_path(rt, argument(rt, i, &mut name)?, buf).map_err(|why| Failure::File(i, why))
}

// Makes the file hold these bytes. The system is asked to keep them, since an error of the close
// would be lost; what has nothing to keep, as a pipe, answers that the request is not valid.
fn overwrite(rt: &impl Files, path: &str, bytes: &[u8]) -> io::Result<()> {
    let mut file = fs::create(rt, path)?;
    file.write_all(bytes)?;
    match file.sync_all() {
        Err(why) if why.kind() == ErrorKind::InvalidInput => Ok(()),
        kept => kept,
    }
}

fn write_path(rt: &impl Files, name: &[u8], bytes: &[u8]) -> Result<(), FileError> {
    overwrite(rt, as_path(name)?, bytes)?;
    Ok(())
}

// Makes the file that argument i names hold these bytes.
pub(crate) fn write(rt: &(impl Env + Files), i: usize, bytes: &[u8]) -> Result<(), Failure> {
    let mut name = [0u8; ARGUMENT_ROOM];
    write_path(rt, argument(rt, i, &mut name)?, bytes).map_err(|why| Failure::File(i, why))
}
