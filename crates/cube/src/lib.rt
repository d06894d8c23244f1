// What the Rust does with the eight values at the corners of one cell: whether the surface crosses it, the centroid of the crossings on
// its edges, and the gradient there. Each contract is an equation with document 01's own definition (crate rules, specs/Cell.antt), for
// every input, infinities and not-a-number included, and no function asks anything of its caller.
#![tactic(auto)]

mod centroid;
mod classing;
mod crossing;
mod gradient;
mod point;
mod tables;

pub use centroid::{Average, Crossings, centroid_of_edge_intersections, sum_of_edge_intersections};
pub use classing::{is_surface, negative_corners, some_of_eight};
pub use crossing::{estimate_surface_edge_intersection, negative};
pub use gradient::sdf_gradient;
pub use point::{Point, position_in};
