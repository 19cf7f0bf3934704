// What the calls tell a C program, by value: the refusal's number first, 0 for none, and zeros
// behind it after a refusal. Their meaning: specs/Told.antt.
ghost use Rattle.std.specs.Prelude.{◌≡◌};
ghost use Rattle.build.specs.Built.{built_answer};
ghost use Rattle.node.specs.Reader.{entry_answer};
ghost use Rattle.shape.specs.Shape.{checked_answer};
ghost use Rattle.sizes.specs.Sizes.{size_answer};
ghost use Rattle.trussember.specs.Told.{built_told, checked_told, entry_told, size_told};

use build::Numbers;
use format::refusal::Refusal;
use shape::Header;

// A check: the page's header, and how many bits prefix and separators have.
#[repr(C)]
#[derive(Clone, Copy, Debug, Default, PartialEq, Eq)]
pub struct Checked {
    pub refusal: u64,
    pub number: u64,
    pub n: u64,
    pub m: u64,
    pub q: u64,
    pub bits: u64,
}

#[tactic(auto, unfolding(crate::specs::Told::checked_told))]
impl From<Result<Header, Refusal>> for Checked {
    ghost from_gives = { λ answer told. told ≡ checked_told (checked_answer answer) };

    fn from(answer: Result<Header, Refusal>) -> Checked {
        match answer {
            Ok(h) => Checked {
                refusal: 0,
                number: h.number,
                n: h.n as u64,
                m: h.m as u64,
                q: h.q as u64,
                bits: h.bits as u64,
            },
            Err(why) => Checked {
                refusal: why.into(),
                ..Checked::default()
            },
        }
    }
}

// The reading of an entry: its pointer.
#[repr(C)]
#[derive(Clone, Copy, Debug, Default, PartialEq, Eq)]
pub struct EntryRead {
    pub refusal: u64,
    pub pointer: u64,
}

#[tactic(auto, unfolding(crate::specs::Told::entry_told))]
impl From<Result<u64, Refusal>> for EntryRead {
    ghost from_gives = { λ answer told. told ≡ entry_told (entry_answer answer) };

    fn from(answer: Result<u64, Refusal>) -> EntryRead {
        match answer {
            Ok(pointer) => EntryRead {
                refusal: 0,
                pointer,
            },
            Err(why) => EntryRead {
                refusal: why.into(),
                ..EntryRead::default()
            },
        }
    }
}

// A build: what the new page's header says, its bits, and the undo record's length.
#[repr(C)]
#[derive(Clone, Copy, Debug, Default, PartialEq, Eq)]
pub struct Built {
    pub refusal: u64,
    pub n: u64,
    pub m: u64,
    pub q: u64,
    pub bits: u64,
    pub undo: u64,
}

#[tactic(auto, unfolding(crate::specs::Told::built_told))]
impl From<Result<Numbers, Refusal>> for Built {
    ghost from_gives = { λ answer told. told ≡ built_told (built_answer answer) };

    fn from(answer: Result<Numbers, Refusal>) -> Built {
        match answer {
            Ok(made) => Built {
                refusal: 0,
                n: made.n as u64,
                m: made.m as u64,
                q: made.q as u64,
                bits: made.bits as u64,
                undo: made.undo as u64,
            },
            Err(why) => Built {
                refusal: why.into(),
                ..Built::default()
            },
        }
    }
}

// A size formula: its value.
#[repr(C)]
#[derive(Clone, Copy, Debug, Default, PartialEq, Eq)]
pub struct Size {
    pub refusal: u64,
    pub value: u64,
}

#[tactic(auto, unfolding(crate::specs::Told::size_told))]
impl From<Result<usize, Refusal>> for Size {
    ghost from_gives = { λ answer told. told ≡ size_told (size_answer answer) };

    fn from(answer: Result<usize, Refusal>) -> Size {
        match answer {
            Ok(value) => Size {
                refusal: 0,
                value: value as u64,
            },
            Err(why) => Size {
                refusal: why.into(),
                ..Size::default()
            },
        }
    }
}
