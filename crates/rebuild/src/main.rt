// The driver: builds one page from files, and looks at pages and records.
//     rebuild build BASE RECORD NUMBER PAGE UNDO    an empty BASE: no base
//     rebuild check PAGE
//     rebuild show PAGE
//     rebuild record RECORD
// It reads files, calls the library and prints. A message on standard error names the file that is
// to blame; a refusal has its number and document 01's words. PAGE and UNDO are written after an
// accepted build alone, UNDO first, so that no page is replaced without the way back.
#![tactic(auto)]

mod digits;
mod files;
mod records;
mod show;
mod tell;

use format::layout;
use format::refusal::Refusal;
use shape::Header;
use std::env::FillError;
use std::rt::{Env, Files, Runtime};
use tell::Failure;

// Where the arguments stand: that of a look, and those of a build.
pub(crate) const LOOKED_AT: usize = 2;

const BASE: usize = 2;

const RECORD: usize = 3;

const NUMBER: usize = 4;

const PAGE: usize = 5;

const UNDO: usize = 6;

// What is read of a page and of a record: a byte more than the longest that is accepted.
const PAGE_ROOM: usize = layout::PAGE_SIZE + 1;

const RECORD_ROOM: usize = layout::LONGEST_RECORD + 1;

// What the program is asked to do.
#[derive(Clone, Copy, Debug, PartialEq, Eq)]
enum Command {
    Build,
    Check,
    Show,
    Record,
}

impl Command {
    // The command of so many words, the first of which is the program's name and the second this.
    fn of(name: &[u8], words: usize) -> Option<Command> {
        match (name, words) {
            (b"build", 7) => Some(Command::Build),
            (b"check", 3) => Some(Command::Check),
            (b"show", 3) => Some(Command::Show),
            (b"record", 3) => Some(Command::Record),
            _ => None,
        }
    }
}

// The argument that names the file which a build's refusal is about: BASE for 1 to 8, else RECORD.
fn blamed(why: Refusal) -> usize {
    if u64::from(why) < 9 { BASE } else { RECORD }
}

// Builds from files into two buffers, and then into files. Not inlined, so that a look does not
// carry its buffers.
#[inline(never)]
fn build_page(rt: &impl Runtime) -> Result<(), Failure> {
    let number = digits::argument(rt, NUMBER)?;
    if files::same_names(rt, PAGE, UNDO) {
        return Err(Failure::OneFile(PAGE));
    }
    let mut base = [0u8; PAGE_ROOM];
    let mut rec = [0u8; RECORD_ROOM];
    let base = files::read(rt, BASE, &mut base)?;
    let rec = files::read(rt, RECORD, &mut rec)?;
    let mut page = [0u8; layout::PAGE_SIZE];
    let mut undo = [0u8; 24704];
    let v = build::build(base, rec, number, &mut page, &mut undo).map_err(|why| Failure::Refused(
        blamed(why),
        why,
    ))?;
    let len = v.undo.min(undo.len());
    files::write(rt, UNDO, &undo[..len])?;
    files::write(rt, PAGE, &page)?;
    let h = Header {
        number: u64::from(number),
        n: v.n,
        m: v.m,
        q: v.q,
        bits: v.bits,
    };
    println!(rt; "{h}, undo {}", v.undo)?;
    Ok(())
}

// Looks at the one file that is named, of which it reads no more bytes than there is room for. Not
// inlined, so that neither a build nor another look carries its buffer.
#[inline(never)]
fn look<F: FnOnce(&[u8]) -> Result<(), Failure>>(
    rt: &(impl Env + Files),
    room: usize,
    at: F,
) -> Result<(), Failure>
    requires { F.IsAlwaysCallable at }
{
    let mut buf = [0u8; RECORD_ROOM];
    let room = room.min(RECORD_ROOM);
    at(files::read(rt, LOOKED_AT, &mut buf[..room])?)
}

// How many words the program was called with, its own name among them; 8 where there are more.
fn count_words(rt: &impl Env) -> usize {
    (0..8)
        .position(|i| matches!(rt.arg(i, &mut [0u8; 1]), Err(FillError::NotPresent)))
        .unwrap_or(8)
}

fn run(rt: &impl Runtime) -> Result<(), Failure> {
    let mut name = [0u8; 8];
    let name = files::argument(rt, 1, &mut name).unwrap_or(&[]);
    match Command::of(name, count_words(rt)) {
        Some(Command::Build) => build_page(rt),
        Some(Command::Check) => look(rt, PAGE_ROOM, |page| show::header(rt, page).map(|_| ())),
        Some(Command::Show) => look(rt, PAGE_ROOM, |page| show::page(rt, page)),
        Some(Command::Record) => look(rt, RECORD_ROOM, |rec| records::record(rt, rec)),
        None => Err(Failure::Usage),
    }
}

fn main(rt: HostRuntime) {
    if let Err(why) = run(&rt) {
        why.report(&rt);
    }
}
