// What is printed of each bench grid.
use judge::{Refusal, Tally};
use std::fmt;

pub(crate) const HEAD: &str =
    "# Document 01's bench grids, meshed by the proved library. Floats are given by their bits.
# Expected: document 01's own numbers where it gives them, and else what the published Rust made of the same calls (oracle/);
# no number is copied from this program. Every lent number holds a mark before the call. \"rest kept\": all that answer 0
# does not write still holds its mark, the map's entries outside the box too; those of no cell inside it hold 4294967295.
# \"all kept\": the refusal changed nothing.";

// The name, with blanks up to the column of the answers, the answer with its counts, and whether the marks were kept.
#[derive(Clone, Copy)]
pub(crate) struct Line {
    pub(crate) name: &'static str,
    pub(crate) answer: Result<Tally, Refusal>,
    pub(crate) is_kept: bool,
}

impl fmt::Display for Line {
    fn fmt<W: fmt::Write>(&self, f: &mut fmt::Formatter<W>) -> fmt::Result {
        let (number, counts) = judge::numbers(self.answer);
        let rest = match (self.is_kept, number) {
            (false, _) => "CHANGED",
            (true, 0) => "rest kept",
            (true, _) => "all kept",
        };
        write!(
            f,
            "{:36}answer {}, V {}, I {}, {rest}",
            self.name, number, counts.vertices, counts.indices
        )
    }
}
