// Condition 5 of document 01: a distance in the box that is not finite or beyond the cap. One function for a row, a layer and the box.
ghost use Rattle.std.specs.Prelude.{◌≡◌, ◌||◌, ◌+◌, ◌≤◌, length};
ghost use Rattle.lists.specs.Lists.{some};
ghost use Rattle.rules.specs.Call.{beyond, bad_layer, bad_distance};
ghost use Rattle.grid.specs.Block.{box_of, field_of};
ghost use Rattle.grid.specs.Inside.{Inside};

use crate::place::linearize;
use crate::values::Distance;
use crate::{Block, Extent};

// The largest magnitude that is let in, 2^124.
pub const CAP: f32 = 21267647932558653966460912964485513216.0;

pub fn either(a: bool, b: bool) -> bool
    ensures { result ≡ (a || b) }
{
    a | b
}

// A row of distances. Each is asked: there is no branch, and no early end.
fn bad_row<D: Distance>(row: &[D]) -> bool
    ensures { result ≡ some beyond (D.floats row.now) }
{
    let mut bad = false;
    for d in row {
        bad = bad | d.is_beyond();
    }
    bad
}

pub fn bad_layer<D: Distance>(sdf: &[D], k: Block, z: u32) -> bool
    requires inside { Inside (D.floats sdf.now) k }
    requires z_le_z { (k.low.z ≤ z) × (z ≤ k.high.z) }
    ensures { result ≡ bad_layer (field_of (D.floats sdf.now) k) (box_of k) z }
{
    let from = k.low.y;
    let end = k.high.y + 1;
    let n = (k.high.x + 1 - k.low.x) as usize;
    let mut bad = false;
    for y in from..end {
        let at = linearize(k.dims, Extent { x: k.low.x, y, z });
        bad = bad | bad_row(&sdf[at..at + n]);
    }
    bad
}

pub fn bad_distance<D: Distance>(sdf: &[D], k: Block) -> bool
    requires { Inside (D.floats sdf.now) k }
    ensures { result ≡ bad_distance (field_of (D.floats sdf.now) k) (box_of k) }
{
    let from = k.low.z;
    let end = k.high.z + 1;
    let mut bad = false;
    for z in from..end {
        bad = bad | bad_layer(sdf, k, z);
    }
    bad
}
