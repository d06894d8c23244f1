// Signs counted: how many corners of a cell's side are negative, and whether that many of eight make a surface cell. A yes is 1, so that a loop over a
// row neither branches nor stops early.
ghost use Rattle.std.specs.Prelude.{◌≡◌, ◌&&◌, ◌+◌, ◌<◌, ◌≤◌, leb, length};
ghost use Rattle.lists.specs.Lists.{one};
ghost use Rattle.grid.specs.Corners.{side_between};
ghost use Rattle.grid.specs.Signs.{side_negatives};

use crate::corners::side_between;
use crate::values::Distance;

pub fn counted(yes: bool) -> u32
    ensures value { result ≡ one yes }
    ensures upper_bound { result ≤ 1 }
{
    yes as u32
}

// How many corners of a side are negative.
pub fn side_negatives<D: Distance>(lower: &[D], upper: &[D], at: usize, row: usize) -> u32
    requires { (at + row < length (D.floats lower.now)) × (at + row < length (D.floats upper.now)) }
    ensures value { result ≡ side_negatives (side_between (D.floats lower.now) (D.floats upper.now) at row) }
    ensures upper_bound { result ≤ 4 }
{
    let s = side_between(lower, upper, at, row);
    let a = counted(cube::negative(s.a));
    let b = counted(cube::negative(s.b));
    let c = counted(cube::negative(s.c));
    let d = counted(cube::negative(s.d));
    a + b + c + d
}

// 1 where 1 to 7 of 8 corners are negative.
pub fn surface_count(negatives: u32) -> u32
    ensures value { result ≡ one (leb 1 negatives && leb negatives 7) }
    ensures upper_bound { result ≤ 1 }
{
    counted(cube::some_of_eight(negatives))
}
