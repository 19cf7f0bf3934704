// What ends a run early, and standard error, where it is said.
use crate::digits::NotANumber;
use crate::files;
use crate::files::FileError;
use format::refusal::Refusal;
use std::env::FillError;
use std::fmt::Display;
use std::io;
use std::rt::{Env, HostRuntime};

// Standard error, for text and for bytes that need not be text, as a file's name.
pub(crate) trait Tell: Eprint {
    // Writes all of the bytes, if it can.
    fn tell(&self, bytes: &[u8]);
}

impl Tell for HostRuntime {
    fn tell(&self, bytes: &[u8]) {
        let _ = self.stderr().write_all(bytes);
    }
}

// Why a run ended early, and the place of the argument that is to blame.
#[derive(Drop)]
pub(crate) enum Failure {
    // No command has such words.
    Usage,
    // An argument was not read.
    Argument(FillError),
    // An argument is not a page number.
    Number(usize, NotANumber),
    // An argument names what the next one names, and both would be written.
    OneFile(usize),
    // The file that an argument names was not read or not written.
    File(usize, FileError),
    // What that file holds was refused.
    Refused(usize, Refusal),
    // Standard output takes no more.
    Output(io::Error),
}

impl From<FillError> for Failure {
    fn from(why: FillError) -> Failure {
        Failure::Argument(why)
    }
}

// What fails by itself is the printing: a file's error comes with its argument.
impl From<io::Error> for Failure {
    fn from(why: io::Error) -> Failure {
        Failure::Output(why)
    }
}

impl Failure {
    // Says it on standard error. Not inlined, so that its buffer takes no stack of the run.
    #[inline(never)]
    pub(crate) fn report(self, rt: &(impl Env + Tell + Alloc)) {
        match self {
            Failure::Usage => usage(rt),
            Failure::Argument(FillError::NotPresent) => rt.tell(b"argument: Invalid argument\n"),
            Failure::Argument(FillError::TooLong) => rt.tell(b"argument: File name too long\n"),
            Failure::Number(i, why) => about(rt, i, why),
            Failure::OneFile(i) => about(rt, i, "PAGE and UNDO are one file"),
            Failure::File(i, FileError::System(why)) => {
                name(rt, i);
                system(rt, why);
            }
            Failure::File(i, why) => about(rt, i, why),
            Failure::Refused(i, why) => {
                about(
                    rt,
                    i,
                    format_args!("refused with {}: {why}", u64::from(why)),
                );
            }
            Failure::Output(why) => {
                rt.tell(b"standard output");
                system(rt, why);
            }
        }
    }
}

fn usage(rt: &impl Tell) {
    rt.tell(b"rebuild build BASE RECORD NUMBER PAGE UNDO\n");
    rt.tell(b"rebuild check PAGE\n");
    rt.tell(b"rebuild show PAGE\n");
    rt.tell(b"rebuild record RECORD\n");
}

// Argument i; for an empty one, that it is, as for one that was not read.
fn name(rt: &(impl Env + Tell), i: usize) {
    let mut buf = [0u8; files::ARGUMENT_ROOM];
    match files::argument(rt, i, &mut buf) {
        Ok(name) if !name.is_empty() => rt.tell(name),
        _ => rt.tell(b"(empty)"),
    }
}

// A line: argument i, a colon and what is wrong with it.
fn about(rt: &(impl Env + Tell), i: usize, why: impl Display + Drop) {
    name(rt, i);
    let _ = eprintln!(rt; ": {why}");
}

// A line's end: a colon and the system's words, without the number that std puts behind them (with
// it where no memory is left).
fn system(rt: &(impl Tell + Alloc), why: io::Error) {
    rt.tell(b": ");
    let _ = match format!(in rt.alloc(); "{why}") {
        Ok(text) => rt.eprintln(words(text.as_str())),
        Err(_) => rt.eprintln(why),
    };
}

// An error's text up to its number.
fn words(text: &str) -> &str {
    text.split_once(" (os error ")
        .map_or(text, |(words, _)| words)
}
