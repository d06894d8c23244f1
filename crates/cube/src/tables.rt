// The cube's corners and edges, in document 01's order: the Rust's CUBE_CORNERS and CUBE_EDGES, as functions of a corner's and of an edge's number. The
// twelve edges are gone through at each vertex: with functions the compiler writes out the loop, and over a static table a cell takes three quarters longer.
ghost use Rattle.std.specs.Prelude.{◌≡◌, ◌<◌};
ghost use Rattle.rules.specs.Cell.{bit, corner_vector};
ghost use Rattle.cube.specs.AsRules.{vector, edge_at};

use crate::point::Point;

// A coordinate in the unit cube, 0 or 1, as a float.
fn coordinate(n: usize) -> f32
    ensures { result ≡ bit n }
{
    if n == 0 { 0.0 } else { 1.0 }
}

// "Corner i stands at (i mod 2, i/2 mod 2, i/4)."
pub(crate) fn corner_vector(corner: usize) -> Point
    requires { corner < 8 }
    ensures { vector result ≡ corner_vector corner }
{
    Point {
        x: coordinate(corner % 2),
        y: coordinate(corner / 2 % 2),
        z: coordinate(corner / 4),
    }
}

// "Edges, in this order: 0-1, 0-2, 0-4, 1-3, 1-5, 2-3, 2-6, 3-7, 4-5, 4-6, 5-7, 6-7."
pub(crate) fn first_end(edge: usize) -> usize
    requires { edge < 12 }
    ensures { (result ≡ (edge_at edge).a) × (result < 8) }
{
    match edge {
        0..=2 => 0,
        3 | 4 => 1,
        5 | 6 => 2,
        7 => 3,
        8 | 9 => 4,
        10 => 5,
        _ => 6,
    }
}

pub(crate) fn second_end(edge: usize) -> usize
    requires { edge < 12 }
    ensures { (result ≡ (edge_at edge).b) × (result < 8) }
{
    match edge {
        0 => 1,
        1 => 2,
        2 => 4,
        3 | 5 => 3,
        4 | 8 => 5,
        6 | 9 => 6,
        _ => 7,
    }
}
