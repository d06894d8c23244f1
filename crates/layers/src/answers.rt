// A layer's answer, before anything is written: document 01's conditions in their order, with 8 right after 2.
ghost use Rattle.std.specs.Prelude.{◌≡◌};
ghost use Rattle.grid.specs.Block.{box_of, flags_of};
ghost use Rattle.count.specs.Tally.{tally_of};
ghost use Rattle.judge.specs.AsRules.{room_of};
ghost use Rattle.layers.specs.Answer.{answer_of};
ghost use Rattle.layers.specs.Memory.{memory};
ghost use Rattle.layers.specs.Offer.{between, bad_points, layer_answer};
ghost use Rattle.layers.specs.Ready.{Layer, Ready, new_cells};

use crate::keeping::half_of;
use crate::start::short_memory;
use crate::{Refusal, State};
use grid::checks::{Fault, bad_box, bad_dimensions};
use grid::{Block, Extent};
use judge::{Lengths, Tally};

// Condition 5 for one layer: it is scanned as a grid of its own, one layer high.
fn bad_points(layer: &[f32], k: Block) -> bool
    requires { Layer k layer.now }
    ensures { result ≡ bad_points k layer.now }
{
    let flat = Block {
        dims: Extent { z: 1, ..k.dims },
        low: Extent { z: 0, ..k.low },
        high: Extent { z: 0, ..k.high },
        max_plane: k.max_plane,
    };
    grid::scan::bad_distance(layer, flat)
}

// V and I of the cells below the layer offered: none below the first.
fn count_below(s: State, layer: &[f32], distances: &[f32]) -> Tally
    requires { Ready s layer.now distances.now }
    ensures { result ≡ tally_of (between s layer.now distances.now) (box_of s.block) (flags_of s.block) (new_cells s) }
{
    if s.taken == 0 {
        return Tally {
            vertices: 0,
            indices: 0,
        };
    }
    let k = s.block;
    let t = s.taken - 1;
    let lower = half_of(distances, layer.len(), t);
    count::count_layer(lower, layer, k, k.low.z + t)
}

// The answer to a layer. Any state and any lists may come.
pub(crate) fn layer_answer(
    s: State,
    layer: &[f32],
    distances: &[f32],
    map: &[u32],
    positions: &[f32],
    room: Lengths,
) -> Result<Tally, Refusal>
    ensures { answer_of result ≡ layer_answer s layer.now (memory distances.now map.now positions.now) (room_of room) }
{
    let k = s.block;
    if bad_dimensions(k.dims) {
        return Err(Refusal::from(Fault::Dimensions));
    }
    if bad_box(k) {
        return Err(Refusal::from(Fault::Box));
    }
    if k.high.z - k.low.z < s.taken {
        return Err(Refusal::Full);
    }
    let plane = (k.dims.x as usize) * (k.dims.y as usize);
    if layer.len() != plane {
        return Err(Refusal::from(Fault::Length));
    }
    if short_memory(plane, distances.len(), map.len(), positions.len()) {
        return Err(Refusal::Call(judge::Refusal::Map));
    }
    if bad_points(layer, k) {
        return Err(Refusal::Call(judge::Refusal::Distance));
    }
    let counts = judge::room_answer(count_below(s, layer, distances), room)?;
    Ok(counts)
}
