// Which of a cell's three edges, those from its lowest corner, the box owns.
ghost use Rattle.std.specs.Prelude.{◌≡◌, ◌&&◌, ◌||◌, T};
ghost use Rattle.rules.specs.Grid.{is_cell, axis_x, axis_y, axis_z};
ghost use Rattle.rules.specs.Faces.{owned, edge};
ghost use Rattle.grid.specs.Block.{point, box_of, flags_of};

use crate::{Block, EachAxis, Extent};

// Above min on the two other axes and, unless max plane, not at max - 1 along the edge.
pub fn owns(above_b: bool, above_c: bool, plane: bool, inner: bool) -> bool
    ensures { result ≡ (above_b && (above_c && (plane || inner))) }
{
    if !above_b {
        return false;
    }
    if !above_c {
        return false;
    }
    if plane {
        return true;
    }
    inner
}

pub fn owned_at(k: Block, p: Extent) -> EachAxis
    requires { T (is_cell (box_of k) (point p)) }
    ensures x_value { result.x ≡ owned (box_of k) (flags_of k) (edge axis_x (point p)) }
    ensures y_value { result.y ≡ owned (box_of k) (flags_of k) (edge axis_y (point p)) }
    ensures z_value { result.z ≡ owned (box_of k) (flags_of k) (edge axis_z (point p)) }
{
    let above_x = k.low.x < p.x;
    let above_y = k.low.y < p.y;
    let above_z = k.low.z < p.z;
    let inner_x = p.x != k.high.x - 1;
    let inner_y = p.y != k.high.y - 1;
    let inner_z = p.z != k.high.z - 1;
    EachAxis {
        x: owns(above_y, above_z, k.max_plane.x, inner_x),
        y: owns(above_z, above_x, k.max_plane.y, inner_y),
        z: owns(above_x, above_y, k.max_plane.z, inner_z),
    }
}
