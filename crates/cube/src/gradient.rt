// The normal: the gradient of the distances at a point of the cell, not of unit length.
ghost use Rattle.std.specs.Prelude.{◌≡◌};
ghost use Rattle.rules.specs.Cell.{blend, normal};
ghost use Rattle.cube.specs.AsRules.{vector};

use crate::point::Point;

// Where the surface stands on the two other axes: n and s on the first, and on the second. The four differences are blended
// one after the other, each sum rounded before the next.
fn blended(n1: f32, s1: f32, n2: f32, s2: f32, a: f32, b: f32, c: f32, d: f32) -> f32
    ensures { result ≡ blend n1 s1 n2 s2 a b c d }
{
    (((n1 * n2) * a + (n1 * s2) * b) + (s1 * n2) * c) + (s1 * s2) * d
}

// "Normal, not of unit length, with n = 1 - s."
pub fn sdf_gradient(d: &[f32; 8], s: Point) -> Point
    ensures { vector result ≡ normal d.now (vector s) }
{
    let n = Point::ONE - s;
    let [d0, d1, d2, d3, d4, d5, d6, d7] = *d;
    Point {
        x: blended(n.y, s.y, n.z, s.z, d1 - d0, d5 - d4, d3 - d2, d7 - d6),
        y: blended(n.z, s.z, n.x, s.x, d2 - d0, d3 - d1, d6 - d4, d7 - d5),
        z: blended(n.x, s.x, n.y, s.y, d4 - d0, d6 - d2, d5 - d1, d7 - d3),
    }
}
