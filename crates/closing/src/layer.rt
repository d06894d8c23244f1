// A bed closed one layer at a time, for a head that cannot hold the grid.
ghost use Rattle.std.specs.Prelude.{◌≡◌, not, T, length};
ghost use Rattle.rules.specs.Grid.{between};
ghost use Rattle.rules.specs.Call.{bad_dimensions};
ghost use Rattle.grid.specs.Block.{point};
ghost use Rattle.closing.specs.Closed.{layer_count};
ghost use Rattle.closing.specs.Answers.{bad_height, bad_room, layer_wanted, layer_answer, layer_room};
ghost use Rattle.closing.specs.Refused.{answer_of};

use crate::refusal::Refusal;
use crate::runs::{close_plane, put_wall};
use crate::wall::bad_wall;
use crate::whole::closed_dims;
use grid::Extent;
use grid::checks::bad_dimensions;
use grid::values::Distance;

// A layer that the open grid has, and that is not wall alone.
fn is_open(d: Extent, z: u32) -> bool
    ensures { result ≡ between 1 d.z z }
{
    (1 <= z) & (z <= d.z)
}

fn layer_wanted(d: Extent, z: u32) -> usize
    ensures { result ≡ layer_wanted (point d) z }
{
    if is_open(d, z) {
        return (d.x as usize) * (d.y as usize);
    }
    0
}

fn bad_height(d: Extent, z: u32) -> bool
    requires { T (not (bad_dimensions (point d))) }
    ensures { result ≡ bad_height (point d) z }
{
    d.z + 3 <= z
}

fn bad_layer_room(d: Extent, room: usize) -> bool
    ensures { result ≡ bad_room (layer_count (point d)) room }
{
    room < (d.x as usize) * (d.y as usize)
}

// The first condition that holds.
#[tactic(auto, unfolding(crate::specs::Answers::layer_answer))]
fn layer_fault(dims: Extent, z: u32, size: usize, wall: f32, room: usize) -> Result<(), Refusal>
    ensures { answer_of result ≡ layer_answer (point dims) z size wall room }
{
    if bad_dimensions(dims) {
        return Err(Refusal::Dimensions);
    }
    if bad_height(dims, z) {
        return Err(Refusal::Height);
    }
    if size != layer_wanted(dims, z) {
        return Err(Refusal::Length);
    }
    if bad_wall(wall) {
        return Err(Refusal::Wall);
    }
    let closed = closed_dims(dims);
    if bad_dimensions(closed) {
        return Err(Refusal::ClosedDimensions);
    }
    if bad_layer_room(closed, room) {
        return Err(Refusal::Room);
    }
    Ok(())
}

// A layer of floats or of whole numbers of 16 or of 8 bits (document 02, request 5), into floats. Refused are 1, 3 and 71 to 74; a refusal changes nothing.
pub fn close_layer<D: Distance>(
    layer: &[D],
    dims: Extent,
    z: u32,
    wall: f32,
    closed: &mut [f32],
) -> Result<(), Refusal>
    ensures value { answer_of result ≡ layer_answer (point dims) z (length layer.now) wall (length closed.old) }
    ensures closed_after { closed.new ≡ layer_room (point dims) wall z (D.floats layer.now) closed.old }
{
    layer_fault(dims, z, layer.len(), wall, closed.len())?;
    let n = dims.x as usize;
    let m = dims.y as usize;
    if is_open(dims, z) {
        close_plane(layer, n, m, wall, closed, 0);
    } else {
        put_wall(wall, (n + 3) * (m + 3), closed, 0);
    }
    Ok(())
}
