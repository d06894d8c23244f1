// Three counts from the distances alone, which bound the volume of a closed bed: the cells wholly in the sludge, V and I. Of a whole grid, and layer by layer
// from min z up, from floats and from whole numbers of 16 and of 8 bits. No function asks anything of its caller, and a refusal changes nothing.
#![tactic(auto)]

mod refusal;
mod whole_cells;

ghost use Rattle.std.specs.Prelude.{◌≡◌, ◌≤◌};
ghost use Rattle.grid.specs.Block.{box_of, flags_of};
ghost use Rattle.grid.specs.Layers.{InLayers};
ghost use Rattle.grid.specs.Values.{between};
ghost use Rattle.tally.specs.Call.{nothing, told_of, plus, too_many, layer_counts, tallied, layer_told};

use grid::Block;
use grid::checks::first_fault;
use grid::values::Distance;
pub use refusal::Refusal;
use refusal::unless_room;

// The cells wholly in the sludge, V and I.
#[derive(Clone, Copy, Debug, PartialEq, Eq)]
pub struct Counts {
    pub whole: u64,
    pub vertices: u64,
    pub indices: u64,
}

impl Counts {
    pub const NONE: Counts = Counts {
        whole: 0,
        vertices: 0,
        indices: 0,
    };
}

// The counts of a whole grid.
pub fn tally<D: Distance>(sdf: &[D], k: Block) -> Result<Counts, Refusal>
    ensures { told_of nothing result ≡ tallied (D.floats sdf.now) k }
{
    first_fault(k, sdf.len())?;
    let t = count::count_box(sdf, k);
    if t.bad {
        return Err(Refusal::Distance);
    }
    let whole = whole_cells::whole_box(sdf, k);
    Ok(Counts {
        whole: whole as u64,
        vertices: t.vertices as u64,
        indices: t.indices as u64,
    })
}

// ---- one layer, with the layer below it, on the counts so far

// No box has more than 2^60 of anything.
fn too_many(c: Counts) -> bool
    ensures { result ≡ too_many c }
{
    (1152921504606846976 < c.whole)
        | ((1152921504606846976 < c.vertices) | (1152921504606846976 < c.indices))
}

// The counts of the cells between two layers, on those so far.
fn with_layer<D: Distance>(below: &[D], layer: &[D], k: Block, z: u32, so_far: Counts) -> Counts
    requires in_layers { InLayers (D.floats below.now) (D.floats layer.now) k z }
    requires so_far_bound { (so_far.whole ≤ 1152921504606846976) × ((so_far.vertices ≤ 1152921504606846976) × (so_far.indices ≤ 1152921504606846976)) }
    ensures { result ≡ plus so_far
        (layer_counts (between D.floats below.now layer.now k z) (box_of k) (flags_of k) z) }
{
    let t = count::count_layer(below, layer, k, z);
    let whole = whole_cells::whole_layer(below, layer, k, z);
    let cells = so_far.whole + (whole as u64);
    let vertices = so_far.vertices + (t.vertices as u64);
    let indices = so_far.indices + (t.indices as u64);
    Counts {
        whole: cells,
        vertices,
        indices,
    }
}

// The counts once a layer is taken: none at min z, and else those so far with the cells between the two layers. The layers are good or bad as the levels have
// it, whose call is asked with no room for a level.
pub fn tally_layer<D: Distance>(
    below: &[D],
    layer: &[D],
    k: Block,
    z: u32,
    so_far: Counts,
) -> Result<Counts, Refusal>
    ensures { told_of so_far result ≡ layer_told (D.floats below.now) (D.floats layer.now) k z so_far }
{
    let found = levels::levels_layer(below, layer, k.dims, k.low, k.high, z, &mut [0.0f32; 0]);
    unless_room(found)?;
    if z == k.low.z {
        return Ok(Counts::NONE);
    }
    if too_many(so_far) {
        return Err(Refusal::TooMany);
    }
    Ok(with_layer(below, layer, k, z - 1, so_far))
}
