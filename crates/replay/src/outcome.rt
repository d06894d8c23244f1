// What comes of a call and of a file, and how it is printed.
use std::fmt;

// Why a stored call is not replayed: the file ends in it, or it is not as the layout says.
#[derive(Clone, Copy, Debug, PartialEq, Eq)]
pub(crate) enum Fault {
    Cut,
    Malformed,
}

impl fmt::Display for Fault {
    fn fmt<W: fmt::Write>(&self, f: &mut fmt::Formatter<W>) -> fmt::Result {
        f.write_str(match self {
            Fault::Cut => "cut short",
            Fault::Malformed => "malformed",
        })
    }
}

// Why a file is not replayed to its end: a fault after so many calls, or numbers after the last call.
#[derive(Clone, Copy, Debug, PartialEq, Eq)]
pub(crate) enum Stop {
    After(u32, Fault),
    LeftOver,
}

impl fmt::Display for Stop {
    fn fmt<W: fmt::Write>(&self, f: &mut fmt::Formatter<W>) -> fmt::Result {
        match self {
            Stop::After(calls, fault) => write!(f, "{fault} after {calls} calls"),
            Stop::LeftOver => f.write_str("numbers left over after the last call"),
        }
    }
}

// A part of an answer, in which a call and what is stored of it can differ.
#[derive(Clone, Copy, Debug, PartialEq, Eq)]
pub(crate) enum Part {
    Answer,
    Vertices,
    Indices,
    PositionList,
    NormalList,
    CellList,
    StrideList,
    MapList,
    IndexList,
}

// Every part, in the order in which they are compared.
static PARTS: [Part; 9] = [
    Part::Answer,
    Part::Vertices,
    Part::Indices,
    Part::PositionList,
    Part::NormalList,
    Part::CellList,
    Part::StrideList,
    Part::MapList,
    Part::IndexList,
];

impl fmt::Display for Part {
    fn fmt<W: fmt::Write>(&self, f: &mut fmt::Formatter<W>) -> fmt::Result {
        f.write_str(match self {
            Part::Answer => "answer",
            Part::Vertices => "V",
            Part::Indices => "I",
            Part::PositionList => "positions",
            Part::NormalList => "normals",
            Part::CellList => "cells",
            Part::StrideList => "strides",
            Part::MapList => "map",
            Part::IndexList => "indices",
        })
    }
}

// How many calls of a file agreed and how many did not, and how many of these differed in each part first.
#[derive(Clone, Copy)]
pub(crate) struct Tally {
    calls: u32,
    agreed: u64,
    disagreed: u64,
    first_in: [u64; 9],
}

impl Tally {
    pub(crate) fn of(calls: u32) -> Tally {
        Tally {
            calls,
            agreed: 0,
            disagreed: 0,
            first_in: [0; 9],
        }
    }

    // One call more, by the first part in which it differs, if it does.
    pub(crate) fn count(&mut self, differs: Option<Part>) {
        match differs {
            None => self.agreed = self.agreed.wrapping_add(1),
            Some(part) => {
                let i = part as usize;
                self.disagreed = self.disagreed.wrapping_add(1);
                self.first_in[i] = self.first_in[i].wrapping_add(1);
            }
        }
    }
}

impl fmt::Display for Tally {
    fn fmt<W: fmt::Write>(&self, f: &mut fmt::Formatter<W>) -> fmt::Result {
        write!(
            f,
            "{} calls, {} agree, {} disagree",
            self.calls, self.agreed, self.disagreed
        )?;
        if self.disagreed == 0 {
            return Ok(());
        }
        f.write_str("\n    first in:")?;
        for (i, (part, n)) in PARTS.iter().zip(&self.first_in).enumerate() {
            if i > 0 {
                f.write_str(",")?;
            }
            write!(f, " {part} {n}")?;
        }
        Ok(())
    }
}
