// How many cases ran, and how many of them came out otherwise than they should.
use crate::operation::Operation;
use std::{fmt, io};

// Of one operation.
#[derive(Clone, Copy, Debug, Default, PartialEq, Eq)]
pub(crate) struct Tally {
    ran: u64,
    differed: u64,
}

impl Tally {
    // One case more.
    pub(crate) fn count(&mut self, as_it_should: bool) {
        self.ran = self.ran.saturating_add(1);
        if !as_it_should {
            self.differed = self.differed.saturating_add(1);
        }
    }
}

impl fmt::Display for Tally {
    fn fmt<W: fmt::Write>(&self, f: &mut fmt::Formatter<W>) -> fmt::Result {
        write!(f, "{} {}", self.ran, self.differed)
    }
}

// The operations that are reported, in the order of their lines.
const REPORTED: [Operation; 10] = [
    Operation::SepLen,
    Operation::Shared,
    Operation::Separate,
    Operation::Copy,
    Operation::Rebuild,
    Operation::Body,
    Operation::Whole,
    Operation::Stored,
    Operation::Page,
    Operation::Build,
];

// Of each operation, and of what could not be read as a case.
#[derive(Clone, Copy, Debug, Default, PartialEq, Eq)]
pub(crate) struct Tallies {
    of: [Tally; 11],
    pub not_a_case: Tally,
}

impl Tallies {
    // One case more of an operation.
    pub(crate) fn count(&mut self, op: Operation, as_it_should: bool) {
        self.of[op as usize].count(as_it_should);
    }

    // A line for each operation, and one for what was not a case, if there was any.
    pub(crate) fn report(&self, rt: &impl Print) -> io::Result<()> {
        for op in REPORTED {
            println!(rt; "{op} {}", self.of[op as usize])?;
        }
        if self.not_a_case.ran != 0 {
            println!(rt; "not a case {}", self.not_a_case)?;
        }
        Ok(())
    }
}
