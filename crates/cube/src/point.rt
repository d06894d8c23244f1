// A point or a vector in space: three floats held as one value, with the operators of the rules' vectors.
ghost use Rattle.std.specs.Prelude.{◌≡◌};
ghost use Rattle.rules.specs.Cell.{plus, minus, scaled, divided, squared_distance, position};
ghost use Rattle.cube.specs.AsRules.{vector, grid_point};

use std::num::nearest_u32_to_f32;
use std::ops::{Add, Div, Mul, Sub};

#[derive(Clone, Copy, Debug, PartialEq)]
pub struct Point {
    pub x: f32,
    pub y: f32,
    pub z: f32,
}

impl Point {
    pub const ZERO: Point = Point {
        x: 0.0,
        y: 0.0,
        z: 0.0,
    };

    pub const ONE: Point = Point {
        x: 1.0,
        y: 1.0,
        z: 1.0,
    };

    // "Squared distance is (dx·dx + dy·dy) + dz·dz."
    pub fn squared_distance(self, other: Point) -> f32
        ensures { result ≡ squared_distance (vector self) (vector other) }
    {
        let d = self - other;
        (d.x * d.x + d.y * d.y) + d.z * d.z
    }
}

impl Add for Point {
    type Output = Point;

    ghost add_gives = { λ u v r. vector r ≡ plus (vector u) (vector v) };

    fn add(self, other: Point) -> Point {
        Point {
            x: self.x + other.x,
            y: self.y + other.y,
            z: self.z + other.z,
        }
    }
}

impl Sub for Point {
    type Output = Point;

    ghost sub_gives = { λ u v r. vector r ≡ minus (vector u) (vector v) };

    fn sub(self, other: Point) -> Point {
        Point {
            x: self.x - other.x,
            y: self.y - other.y,
            z: self.z - other.z,
        }
    }
}

// The factor stands first in each product, as in the Rust's `interp1 * vector`.
impl Mul<Point> for f32 {
    type Output = Point;

    ghost mul_gives = { λ k v r. vector r ≡ scaled k (vector v) };

    fn mul(self, p: Point) -> Point {
        Point {
            x: self * p.x,
            y: self * p.y,
            z: self * p.z,
        }
    }
}

impl Div<f32> for Point {
    type Output = Point;

    ghost div_gives = { λ v k r. vector r ≡ divided (vector v) k };

    fn div(self, divisor: f32) -> Point {
        Point {
            x: self.x / divisor,
            y: self.y / divisor,
            z: self.z / divisor,
        }
    }
}

// "Position = cell + s": the cast takes every number, so nothing is asked of the cell.
#[tactic(auto, unfolding(rules::specs::Cell::position))]
pub fn position_in(x: u32, y: u32, z: u32, s: Point) -> Point
    ensures { vector result ≡ position (grid_point x y z) (vector s) }
{
    let cell = Point {
        x: nearest_u32_to_f32(x),
        y: nearest_u32_to_f32(y),
        z: nearest_u32_to_f32(z),
    };
    cell + s
}
