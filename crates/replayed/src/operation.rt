// What a case tries.
use std::fmt;

// The operations, in the order of their numbers, from 1 on.
#[derive(Clone, Copy, Debug, PartialEq, Eq)]
pub(crate) enum Operation {
    SepLen,
    Shared,
    Separate,
    Copy,
    Rebuild,
    Body,
    Whole,
    Stored,
    Page,
    Build,
    // Text, which is passed over.
    Note,
}

// No operation has the number.
#[derive(Clone, Copy, Debug, PartialEq, Eq)]
pub(crate) struct NoOperation;

impl TryFrom<u8> for Operation {
    type Error = NoOperation;

    fn try_from(number: u8) -> Result<Operation, NoOperation> {
        match number {
            1 => Ok(Operation::SepLen),
            2 => Ok(Operation::Shared),
            3 => Ok(Operation::Separate),
            4 => Ok(Operation::Copy),
            5 => Ok(Operation::Rebuild),
            6 => Ok(Operation::Body),
            7 => Ok(Operation::Whole),
            8 => Ok(Operation::Stored),
            9 => Ok(Operation::Page),
            10 => Ok(Operation::Build),
            11 => Ok(Operation::Note),
            _ => Err(NoOperation),
        }
    }
}

impl fmt::Display for Operation {
    fn fmt<W: fmt::Write>(&self, f: &mut fmt::Formatter<W>) -> fmt::Result {
        f.write_str(match self {
            Operation::SepLen => "sep_len",
            Operation::Shared => "shared",
            Operation::Separate => "separate",
            Operation::Copy => "copy",
            Operation::Rebuild => "rebuild",
            Operation::Body => "body",
            Operation::Whole => "whole",
            Operation::Stored => "stored",
            Operation::Page => "check and entry",
            Operation::Build => "build",
            Operation::Note => "note",
        })
    }
}
