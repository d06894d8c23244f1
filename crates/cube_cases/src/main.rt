// Document 01's fractions, and the corner sets on which an easy slip changes bits, run through `cube`: a line for each, floats by their bits.
// What cannot be written is left out, and the program goes on.
#![tactic(auto)]

use cube::Point;
use printed::Bits;
use std::fmt;

// The values at the two ends of an edge.
struct Edge {
    label: &'static str,
    ends: [f32; 2],
}

static EDGES: [Edge; 6] = [
    Edge {
        label: "1 -1",
        ends: [1.0, -1.0],
    },
    Edge {
        label: "0 -1",
        ends: [0.0, -1.0],
    },
    Edge {
        label: "-0 -1",
        ends: [-0.0, -1.0],
    },
    Edge {
        label: "-1 0",
        ends: [-1.0, 0.0],
    },
    Edge {
        label: "1 0",
        ends: [1.0, 0.0],
    },
    Edge {
        label: "-1 -2",
        ends: [-1.0, -2.0],
    },
];

impl fmt::Display for Edge {
    fn fmt<W: fmt::Write>(&self, f: &mut fmt::Formatter<W>) -> fmt::Result {
        let [value1, value2] = self.ends;
        write!(f, "fraction {}: ", self.label)?;
        match cube::estimate_surface_edge_intersection(value1, value2) {
            Some(fraction) => write!(f, "{}", Bits(fraction)),
            None => f.write_str("none"),
        }
    }
}

// The values at the corners of a cell, corner 0 first, whose lowest corner is (1, 2, 3).
struct Cell {
    label: &'static str,
    corners: [f32; 8],
}

static CELLS: [Cell; 6] = [
    Cell {
        label: "-1 0 0 -1 0 0 0 -1",
        corners: [-1.0, 0.0, 0.0, -1.0, 0.0, 0.0, 0.0, -1.0],
    },
    Cell {
        label: "0 -1 0 0 -2 1 0 0",
        corners: [0.0, -1.0, 0.0, 0.0, -2.0, 1.0, 0.0, 0.0],
    },
    Cell {
        label: "0 0 1 0 0 0 -1 0",
        corners: [0.0, 0.0, 1.0, 0.0, 0.0, 0.0, -1.0, 0.0],
    },
    Cell {
        label: "0 0 0 2 -1 0 0 -1",
        corners: [0.0, 0.0, 0.0, 2.0, -1.0, 0.0, 0.0, -1.0],
    },
    Cell {
        label: "1 1 1 1 1 1 1 -1",
        corners: [1.0, 1.0, 1.0, 1.0, 1.0, 1.0, 1.0, -1.0],
    },
    Cell {
        label: "1 1 1 1 1 1 1 -0",
        corners: [1.0, 1.0, 1.0, 1.0, 1.0, 1.0, 1.0, -0.0],
    },
];

impl fmt::Display for Cell {
    fn fmt<W: fmt::Write>(&self, f: &mut fmt::Formatter<W>) -> fmt::Result {
        let d = &self.corners;
        let average = cube::centroid_of_edge_intersections(d);
        let s = average.point;
        let surface = if cube::is_surface(d) {
            "surface"
        } else {
            "no surface"
        };
        write!(
            f,
            "corners {}: {surface}, crossings {}",
            self.label, average.crossings
        )?;
        write!(f, ", s {}", Shown(s))?;
        write!(f, ", position {}", Shown(cube::position_in(1, 2, 3, s)))?;
        write!(f, ", normal {}", Shown(cube::sdf_gradient(d, s)))
    }
}

// A point by its floats' bits.
#[derive(Clone, Copy)]
struct Shown(Point);

impl fmt::Display for Shown {
    fn fmt<W: fmt::Write>(&self, f: &mut fmt::Formatter<W>) -> fmt::Result {
        let p = self.0;
        write!(f, "{} {} {}", Bits(p.x), Bits(p.y), Bits(p.z))
    }
}

fn main(rt: HostRuntime) {
    let _ = println!(rt;
        "# Stored: by the published formulas of source document 000, run in Rust in plain f32, by component (oracle/cube_cases.rs);"
    );
    let _ = println!(rt;
        "# no number is copied from this program. Floats by their bits; positions are those in the cell (1, 2, 3)."
    );
    for edge in &EDGES {
        let _ = println!(rt; "{edge}");
    }
    for cell in &CELLS {
        let _ = println!(rt; "{cell}");
    }
}
