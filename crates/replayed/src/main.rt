// Runs the cases of data/cases, a sample of an independent model's cases of document 01 that
// tools/sample.py writes, and those of data/frozen, the Rust's own answers that tests/oracle writes.
// For each file it prints its name and a line for each operation: the operation's name, how many
// cases ran, and how many of them came out otherwise than they should.
#![tactic(auto)]

mod bits;
mod builds;
mod cases;
mod operation;
mod pages;
mod tally;

use cases::Case;
use operation::Operation;
use std::fs::File;
use std::io;
use tally::Tallies;

// Runs a case, and answers whether it came out as it should.
fn run(c: Case<'_>) -> bool {
    match c.op {
        Operation::SepLen => bits::sep_len(c.fields),
        Operation::Shared => bits::shared(c.fields),
        Operation::Separate => bits::separate(c.fields),
        Operation::Copy => bits::copy(c.fields),
        Operation::Rebuild => bits::rebuild(c.fields),
        Operation::Body => pages::body(c.fields),
        Operation::Whole => pages::whole(c.fields),
        Operation::Stored => pages::stored(c.fields),
        Operation::Page => pages::page(c.fields),
        Operation::Build => builds::build(c.fields),
        Operation::Note => true,
    }
}

// Runs each case of a file, and reports.
fn replay(rt: &impl Print, file: &mut File) -> io::Result<()> {
    let mut tallies = Tallies::default();
    let mut buf = [0u8; 65536];
    for _ in 0..cases::how_many(file).unwrap_or(0) {
        match cases::read(file, &mut buf) {
            Some(c) => tallies.count(c.op, run(c)),
            None => tallies.not_a_case.count(false),
        }
    }
    tallies.report(rt)
}

// Replays a file of cases.
fn replay_file(rt: &HostRuntime, name: &str) -> io::Result<()> {
    match File::open(rt, name) {
        Ok(mut file) => {
            println!(rt; "{name}")?;
            replay(rt, &mut file)
        }
        Err(e) => eprintln!(rt; "{name}: {e}"),
    }
}

fn main(rt: HostRuntime) -> io::Result<()> {
    replay_file(&rt, "cases")?;
    replay_file(&rt, "frozen")
}
