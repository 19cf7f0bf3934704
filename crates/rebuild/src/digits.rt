// A page number as an argument: decimal digits, below 2^32.
use crate::files;
use crate::tell::Failure;
use std::rt::Env;
use std::{fmt, str};

// Why an argument is not a page number.
#[derive(Clone, Copy, Debug, PartialEq, Eq)]
pub(crate) enum NotANumber {
    // It has no digits, or something else.
    NotDigits,
    // It is 2^32 or more.
    TooLarge,
}

impl fmt::Display for NotANumber {
    fn fmt<W: fmt::Write>(&self, f: &mut fmt::Formatter<W>) -> fmt::Result {
        f.write_str(match self {
            NotANumber::NotDigits => "not a page number, which has decimal digits",
            NotANumber::TooLarge => "not a page number, which is below 4294967296",
        })
    }
}

// The number that decimal digits make.
fn number(s: &[u8]) -> Result<u32, NotANumber> {
    match str::from_utf8(s) {
        Ok(text) if !s.is_empty() && s.iter().all(u8::is_ascii_digit) => {
            text.parse().map_err(|_| NotANumber::TooLarge)
        }
        _ => Err(NotANumber::NotDigits),
    }
}

// The page number that argument i is.
pub(crate) fn argument(rt: &impl Env, i: usize) -> Result<u32, Failure> {
    let mut text = [0u8; files::ARGUMENT_ROOM];
    number(files::argument(rt, i, &mut text)?).map_err(|why| Failure::Number(i, why))
}
