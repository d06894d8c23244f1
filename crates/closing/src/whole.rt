// A grid in memory closed by one call.
ghost use Rattle.std.specs.Prelude.{◌≡◌, not, T, length};
ghost use Rattle.rules.specs.Call.{bad_dimensions};
ghost use Rattle.grid.specs.Block.{point};
ghost use Rattle.closing.specs.Closed.{closed_dims, point_count};
ghost use Rattle.closing.specs.Answers.{bad_closed, bad_room, close_answer, closed_room};
ghost use Rattle.closing.specs.Refused.{answer_of};

use crate::refusal::Refusal;
use crate::runs::close_grid;
use crate::wall::bad_wall;
use grid::Extent;
use grid::checks::{bad_dimensions, bad_length};
use grid::values::Distance;

// Three more points on each axis.
pub(crate) fn closed_dims(d: Extent) -> Extent
    requires { T (not (bad_dimensions (point d))) }
    ensures { point result ≡ closed_dims (point d) }
{
    Extent {
        x: d.x + 3,
        y: d.y + 3,
        z: d.z + 3,
    }
}

fn bad_room(d: Extent, room: usize) -> bool
    requires { T (not (bad_dimensions (point d))) }
    ensures { result ≡ bad_room (point_count (point d)) room }
{
    room < (d.x as usize) * (d.y as usize) * (d.z as usize)
}

// The first condition that holds.
#[tactic(auto, unfolding(crate::specs::Answers::close_answer))]
fn fault(dims: Extent, size: usize, wall: f32, room: usize) -> Result<(), Refusal>
    ensures { answer_of result ≡ close_answer (point dims) size wall room }
{
    if bad_dimensions(dims) {
        return Err(Refusal::Dimensions);
    }
    if bad_length(dims, size) {
        return Err(Refusal::Length);
    }
    if bad_wall(wall) {
        return Err(Refusal::Wall);
    }
    let closed = closed_dims(dims);
    if bad_dimensions(closed) {
        return Err(Refusal::ClosedDimensions);
    }
    if bad_room(closed, room) {
        return Err(Refusal::Room);
    }
    Ok(())
}

// A grid of floats or of whole numbers of 16 or of 8 bits (document 02, request 5), into floats. Refused are 1, 3 and 72 to 74; a refusal changes nothing.
pub fn close<D: Distance>(
    sdf: &[D],
    dims: Extent,
    wall: f32,
    closed: &mut [f32],
) -> Result<(), Refusal>
    ensures value { answer_of result ≡ close_answer (point dims) (length sdf.now) wall (length closed.old) }
    ensures closed_after { closed.new ≡ closed_room (point dims) wall (D.floats sdf.now) closed.old }
{
    fault(dims, sdf.len(), wall, closed.len())?;
    close_grid(
        sdf,
        dims.x as usize,
        dims.y as usize,
        dims.z as usize,
        wall,
        closed,
    );
    Ok(())
}
