// The premise of document 02's request 8 for one layer of a grid that comes layer by layer: no negative point of the layer z of the box is stray. Of every layer
// of the box yes exactly if `is_enclosed` says yes of the grid (proofs/LayerByLayer).
ghost use Rattle.std.specs.Prelude.{◌≡◌};
ghost use Rattle.grid.specs.Block.{box_of};
ghost use Rattle.skin.specs.Answer.{answer_of};
ghost use Rattle.skin.specs.Scan.{outside, examined_layer};

use crate::{Refusal, scan};
use grid::checks::{Fault, bad_box, bad_dimensions};
use grid::values::Distance;
use grid::{Block, EachAxis, Extent};

fn is_outside(k: Block, z: u32) -> bool
    ensures { result ≡ outside (box_of k) z }
{
    z < k.low.z || k.high.z < z
}

// Conditions 1 and 2, then a z outside the box, then condition 3: a layer whose length is not X·Y.
pub fn is_enclosed_layer<D: Distance>(
    layer: &[D],
    dims: Extent,
    low: Extent,
    high: Extent,
    z: u32,
) -> Result<bool, Refusal>
    ensures { answer_of result ≡ examined_layer (D.floats layer.now) dims low high z }
{
    let max_plane = EachAxis::NONE;
    let k = Block {
        dims,
        low,
        high,
        max_plane,
    };
    if bad_dimensions(dims) {
        return Err(Refusal::Grid(Fault::Dimensions));
    }
    if bad_box(k) {
        return Err(Refusal::Grid(Fault::Box));
    }
    if is_outside(k, z) {
        return Err(Refusal::Outside);
    }
    let plane = (dims.x as usize) * (dims.y as usize);
    if layer.len() != plane {
        return Err(Refusal::Grid(Fault::Length));
    }
    let flat = Block {
        dims: Extent { z: 1, ..dims },
        low: Extent { z: 0, ..low },
        high: Extent { z: 0, ..high },
        max_plane,
    };
    Ok(!scan::stray_layer(layer, flat, k, 0, z))
}
