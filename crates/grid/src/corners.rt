// The four corner values of a cell's x side, read by one function, so that a row may reuse a side.
ghost use Rattle.std.specs.Prelude.{◌≡◌, ◌+◌, ◌<◌, length};
ghost use Rattle.grid.specs.Corners.{side_between};

use crate::values::{Distance, value_at};

// The values at the corners of a cell's side, those with one x: at (y, z) = (0, 0), (1, 0), (0, 1), (1, 1).
#[derive(Clone, Copy, Debug, PartialEq)]
pub struct Side {
    pub a: f32,
    pub b: f32,
    pub c: f32,
    pub d: f32,
}

// The side whose lowest corner stands at `at`, of two layers of distances that are lent apart; `row` is the step to the next row.
pub fn side_between<D: Distance>(lower: &[D], upper: &[D], at: usize, row: usize) -> Side
    requires { (at + row < length (D.floats lower.now)) × (at + row < length (D.floats upper.now)) }
    ensures { result ≡ side_between (D.floats lower.now) (D.floats upper.now) at row }
{
    Side {
        a: value_at(lower, at),
        b: value_at(lower, at + row),
        c: value_at(upper, at),
        d: value_at(upper, at + row),
    }
}
