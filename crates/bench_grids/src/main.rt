// Document 01's bench grids, meshed by the library: a line for each with the answer, V and I, and whether all else is as it was.
// The published Rust prints the same lines (oracle/oracle/examples/bench_grids.rs); `stdout` holds those, held against document 01.
#![tactic(auto)]

mod bench;
mod grids;
mod said;

use bench::{AMPLE, Case, Show};
use grid::{Block, EachAxis, Extent};
use judge::Lengths;

fn at(x: u32, y: u32, z: u32) -> Extent {
    Extent { x, y, z }
}

// A call without max plane.
fn plain(dims: Extent, low: Extent, high: Extent) -> Block {
    Block {
        dims,
        low,
        high,
        max_plane: EachAxis::NONE,
    }
}

// The box from 0, 0, 0 to a corner of a grid of dimensions 3, 3, 3.
fn up_to(x: u32, y: u32, z: u32) -> Block {
    plain(at(3, 3, 3), at(0, 0, 0), at(x, y, z))
}

// One point of a long row.
fn row_of(x: u32) -> Block {
    plain(at(x, 1, 1), at(0, 0, 0), at(0, 0, 0))
}

fn with_plane() -> Block {
    Block {
        max_plane: EachAxis::ALL,
        ..up_to(2, 2, 2)
    }
}

// One cell, with its vertex.
fn cell<'a>(name: &'static str, corners: &'a [f32]) -> Case<'a> {
    Case {
        show: Show::Vertex,
        ..Case::new(name, corners, plain(at(2, 2, 2), at(0, 0, 0), at(1, 1, 1)))
    }
}

fn run(rt: &impl Print, cases: &[Case<'_>]) {
    for case in cases {
        case.run(rt);
    }
}

// Meshes, dimensions, boxes and lengths.
fn balls(rt: &impl Print) {
    let ball = grids::ball(-1.0);
    let whole = up_to(2, 2, 2);
    run(
        rt,
        &[
            Case {
                show: Show::Mesh,
                ..Case::new("Ball", &ball, whole)
            },
            Case::new("Ball with max plane", &ball, with_plane()),
            Case::new("All 1.0", &grids::ball(1.0), whole),
            Case::new("Ball with -0.0 at the middle", &grids::ball(-0.0), whole),
            Case::new("Ball, flat box to (0,2,2)", &ball, up_to(0, 2, 2)),
            Case {
                show: Show::Indices,
                ..Case::new(
                    "Signs 0x2015 with max plane",
                    &grids::signs(0x2015),
                    with_plane(),
                )
            },
            Case::new(
                "Dimension 0",
                &ball,
                plain(at(0, 3, 3), at(0, 0, 0), at(2, 2, 2)),
            ),
            Case::new("Dimensions 16,777,217, 1, 1", &[1.0], row_of(16777217)),
            Case::new("Dimensions 16,777,218, 1, 1", &[1.0], row_of(16777218)),
            Case::new(
                "min (2,0,0), max (1,2,2)",
                &ball,
                plain(at(3, 3, 3), at(2, 0, 0), at(1, 2, 2)),
            ),
            Case::new("max (3,2,2)", &ball, up_to(3, 2, 2)),
            Case::new("Grid of 26, box to (2,2,2)", &ball[..26], up_to(2, 2, 2)),
            Case::new("Grid of 26, box to (1,1,1)", &ball[..26], up_to(1, 1, 1)),
            Case {
                room: Lengths { map: 26, ..AMPLE },
                ..Case::new("Map one short of the grid", &ball, whole)
            },
        ],
    );
}

// Distances that are not let in, or just.
fn distances(rt: &impl Print) {
    let nan = grids::ball_with(26, 0.0 / 0.0);
    let whole = up_to(2, 2, 2);
    run(
        rt,
        &[
            Case::new("Ball with not-a-number at (2,2,2)", &nan, whole),
            Case::new("The same, box to (1,1,1)", &nan, up_to(1, 1, 1)),
            Case::new(
                "Ball with 2^124 at (0,0,0)",
                &grids::ball_with(0, grids::CAP),
                whole,
            ),
            Case::new(
                "Ball with the next float up",
                &grids::ball_with(0, grids::ABOVE_CAP),
                whole,
            ),
        ],
    );
}

fn room(rt: &impl Print) {
    let ball = grids::ball(-1.0);
    let whole = up_to(2, 2, 2);
    run(
        rt,
        &[
            Case {
                room: Lengths {
                    positions: 23,
                    ..AMPLE
                },
                ..Case::new("Ball, positions 23", &ball, whole)
            },
            Case {
                room: Lengths {
                    positions: 23,
                    indices: 17,
                    ..AMPLE
                },
                ..Case::new("Ball, positions 23, indices 17", &ball, whole)
            },
            Case {
                room: Lengths {
                    indices: 17,
                    ..AMPLE
                },
                ..Case::new("Ball, indices 17", &ball, whole)
            },
        ],
    );
}

// One cell whose four x edges cross alike, and the corners on which other orders of the normal's terms change bits.
fn cells(rt: &impl Print) {
    run(
        rt,
        &[
            cell("Fraction of (1, -1) along x", &grids::along_x(1.0, -1.0)),
            cell("Fraction of (0, -1) along x", &grids::along_x(0.0, -1.0)),
            cell("Fraction of (-1, 0) along x", &grids::along_x(-1.0, 0.0)),
            cell(
                "Cell -1 0 0 -1 0 0 0 -1",
                &[-1.0, 0.0, 0.0, -1.0, 0.0, 0.0, 0.0, -1.0],
            ),
        ],
    );
}

fn main(rt: HostRuntime) {
    let rt = &rt;
    let _ = println!(rt; "{}", said::HEAD);
    balls(rt);
    distances(rt);
    room(rt);
    cells(rt);
}
