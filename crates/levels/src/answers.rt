// The answers, before anything is written: those to a whole grid, and those to a layer with the layer below it.
ghost use Rattle.std.specs.Prelude.{◌≡◌, false, not, ◌||◌, length, if◌then◌else◌, ◌==◌};
ghost use Rattle.grid.specs.Block.{point, box_of};
ghost use Rattle.levels.specs.Answers.{number_of, answer_of};
ghost use Rattle.levels.specs.Columns.{columns};
ghost use Rattle.levels.specs.Call.{bad_points, bad_distances, outside, levels_answer, layer_answer};
ghost use Rattle.levels.specs.Fits.{Roomy, Plane};

use crate::rising::column_count;
use grid::checks::{Fault, bad_box, bad_dimensions, first_fault};
use grid::scan::{bad_distance, bad_layer};
use grid::values::Distance;
use grid::{Block, Extent};

// Why a call is refused: document 01's conditions 1, 2, 3 and 5, a z that is no layer of the box, and lent room for fewer numbers than there are columns.
#[derive(Clone, Copy, Debug, PartialEq, Eq)]
pub enum Refusal {
    Grid(Fault),
    Distance,
    Outside,
    Room,
}

impl From<Fault> for Refusal {
    ghost use Rattle.levels.specs.declared.answers.Refusal.TheVariants.{Grid};

    ghost from_gives = { λ fault refusal. refusal ≡ Grid fault };

    fn from(fault: Fault) -> Refusal {
        Refusal::Grid(fault)
    }
}

impl From<Refusal> for u32 {
    ghost from_gives = { λ refusal number. number ≡ number_of refusal };

    fn from(refusal: Refusal) -> u32 {
        match refusal {
            Refusal::Grid(fault) => u32::from(fault),
            Refusal::Distance => 5,
            Refusal::Outside => 77,
            Refusal::Room => 78,
        }
    }
}

// The answer to a whole grid.
pub(crate) fn levels_answer<D: Distance>(sdf: &[D], k: Block, room: usize) -> Result<(), Refusal>
    ensures { answer_of result ≡ levels_answer (D.floats sdf.now) (point k.dims) (box_of k) room }
{
    first_fault(k, sdf.len())?;
    if bad_distance(sdf, k) {
        return Err(Refusal::Distance);
    }
    if room < column_count(k) {
        return Err(Refusal::Room);
    }
    Ok(())
}

// z is no layer of the box.
fn is_outside(k: Block, z: u32) -> bool
    ensures { result ≡ outside (box_of k) z }
{
    if z < k.low.z {
        return true;
    }
    k.high.z < z
}

// 3, by the lengths of the layer and of the one below it: where the layer is the lowest, none is below it.
fn bad_lengths(plane: usize, lowest: bool, lower: usize, upper: usize) -> bool
    ensures { result ≡ (not (upper == plane) || not (lower == (if lowest then 0 else plane))) }
{
    if upper != plane {
        return true;
    }
    if lowest {
        return lower != 0;
    }
    lower != plane
}

// Condition 5 for one layer: it is scanned as a grid of its own, one layer high.
fn bad_points<D: Distance>(layer: &[D], k: Block) -> bool
    requires { Plane k (D.floats layer.now) }
    ensures { result ≡ bad_points (point k.dims) (box_of k) (D.floats layer.now) }
{
    let dims = Extent {
        x: k.dims.x,
        y: k.dims.y,
        z: 1,
    };
    let low = Extent {
        x: k.low.x,
        y: k.low.y,
        z: 0,
    };
    let high = Extent {
        x: k.high.x,
        y: k.high.y,
        z: 0,
    };
    let max_plane = k.max_plane;
    let flat = Block {
        dims,
        low,
        high,
        max_plane,
    };
    bad_layer(layer, flat, 0)
}

// 5, of both layers: the layer below the lowest is none.
fn bad_distances<D: Distance>(lower: &[D], upper: &[D], k: Block, lowest: bool) -> bool
    requires plane { Plane k (D.floats upper.now) }
    requires plane_2 { lowest ≡ false → Plane k (D.floats lower.now) }
    ensures { result ≡ (bad_points (point k.dims) (box_of k) (D.floats upper.now)
        || (if lowest then false else bad_points (point k.dims) (box_of k) (D.floats lower.now))) }
{
    if bad_points(upper, k) {
        return true;
    }
    if lowest {
        return false;
    }
    bad_points(lower, k)
}

// The answer to a layer.
pub(crate) fn layer_answer<D: Distance>(
    lower: &[D],
    upper: &[D],
    k: Block,
    z: u32,
    room: usize,
) -> Result<(), Refusal>
    ensures { answer_of result ≡ layer_answer (D.floats lower.now) (D.floats upper.now) (point k.dims) (box_of k) z room }
{
    if bad_dimensions(k.dims) {
        return Err(Refusal::Grid(Fault::Dimensions));
    }
    if bad_box(k) {
        return Err(Refusal::Grid(Fault::Box));
    }
    if is_outside(k, z) {
        return Err(Refusal::Outside);
    }
    let lowest = z == k.low.z;
    let plane = (k.dims.x as usize) * (k.dims.y as usize);
    if bad_lengths(plane, lowest, lower.len(), upper.len()) {
        return Err(Refusal::Grid(Fault::Length));
    }
    if bad_distances(lower, upper, k, lowest) {
        return Err(Refusal::Distance);
    }
    if room < column_count(k) {
        return Err(Refusal::Room);
    }
    Ok(())
}
