// A grid, a box in it and the max plane: the conditions 1, 2 and 5 of document 01, and the reading of a cell's corners. What reads the grid asks that
// the box lies in it, which the conditions 1 to 3 say.
#![tactic(auto)]

pub mod checks;
pub mod corners;
pub mod lent;
pub mod ownership;
pub mod place;
pub mod scan;
pub mod signs;
pub mod values;

// Three numbers, one for each axis: dimensions, or a corner of a box.
#[derive(Clone, Copy, Debug, PartialEq, Eq)]
pub struct Extent {
    pub x: u32,
    pub y: u32,
    pub z: u32,
}

// A yes or no for each axis: the max plane, for each axis apart (document 02, request 4; document 01's yes/no is all three, or none), and which of a
// cell's three edges, those from its lowest corner, the box owns.
#[derive(Clone, Copy, Debug, PartialEq, Eq)]
pub struct EachAxis {
    pub x: bool,
    pub y: bool,
    pub z: bool,
}

impl EachAxis {
    pub const NONE: EachAxis = EachAxis {
        x: false,
        y: false,
        z: false,
    };

    pub const ALL: EachAxis = EachAxis {
        x: true,
        y: true,
        z: true,
    };
}

// A box with its max plane in a grid of these dimensions.
#[derive(Clone, Copy, Debug, PartialEq, Eq)]
pub struct Block {
    pub dims: Extent,
    pub low: Extent,
    pub high: Extent,
    pub max_plane: EachAxis,
}
