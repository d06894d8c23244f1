// The centroid of the points where the surface crosses the twelve edges of a cell, and their number.
ghost use Rattle.std.specs.Prelude.{◌≡◌, ◌<◌};
ghost use Rattle.rules.specs.Cell.{point_between, summed, zero_vector, crossing_points, crossings, centroid};
ghost use Rattle.cube.specs.AsRules.{vector};

use crate::crossing::estimate_surface_edge_intersection;
use crate::point::Point;
use crate::tables::{corner_vector, first_end, second_end};
use std::num::nearest_u32_to_f32;

// The points of the crossed edges summed up, and how many there are.
#[derive(Clone, Copy, Debug, PartialEq)]
pub struct Crossings {
    pub sum: Point,
    pub count: u32,
}

// "g = 1 - f; point = g·corner a + f·corner b"
#[tactic(auto, unfolding(rules::specs::Cell::point_between))]
fn point_between(f: f32, a: usize, b: usize) -> Point
    requires { (a < 8) × (b < 8) }
    ensures { vector result ≡ point_between f a b }
{
    let g = 1.0 - f;
    g * corner_vector(a) + f * corner_vector(b)
}

// "Sum the points in edge order from zero."
pub fn sum_of_edge_intersections(d: &[f32; 8]) -> Crossings
    ensures sum_value { vector result.sum ≡ summed zero_vector (crossing_points d.now) }
    ensures count_value { result.count ≡ crossings d.now }
{
    let mut sum = Point::ZERO;
    let mut count = 0u32;
    for e in 0usize..12 {
        let a = first_end(e);
        let b = second_end(e);
        if let Some(f) = estimate_surface_edge_intersection(d[a], d[b]) {
            sum = sum + point_between(f, a, b);
            count += 1;
        }
    }
    Crossings { sum, count }
}

// Document 02, request 13: "The step that averages crossings must now also answer their number", which fits a byte.
#[derive(Clone, Copy, Debug, PartialEq)]
pub struct Average {
    pub point: Point,
    pub crossings: u8,
}

// "divide by their number as a float: that is s". A cell without a crossing gives what 0 / 0 gives.
#[tactic(auto, unfolding(rules::specs::Cell::centroid))]
pub fn centroid_of_edge_intersections(d: &[f32; 8]) -> Average
    ensures point_value { vector result.point ≡ centroid d.now }
    ensures crossings_value { result.crossings ≡ crossings d.now }
{
    let c = sum_of_edge_intersections(d);
    let point = c.sum / nearest_u32_to_f32(c.count);
    let number = c.count as u8;
    Average {
        point,
        crossings: number,
    }
}
