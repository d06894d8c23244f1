// The start's answer, before anything is written: document 01's conditions 1 and 2, and 4 for the lists that are kept between layers.
ghost use Rattle.std.specs.Prelude.{◌||◌, ◌≡◌, ◌*◌, ◌≤◌, ltb};
ghost use Rattle.layers.specs.Answer.{start_number};
ghost use Rattle.layers.specs.Memory.{start_answer};

use crate::Refusal;
use grid::Block;
use grid::checks::{Fault, bad_box, bad_dimensions};

// Condition 4: the lists that are kept between layers, by their lengths, do not hold two layers, two layers of map and the positions of one.
pub(crate) fn short_memory(plane: usize, distances: usize, map: usize, positions: usize) -> bool
    requires { plane ≤ 1073741824 }
    ensures { result ≡ (ltb distances (2 * plane) || (ltb map (2 * plane) || ltb positions (3 * plane))) }
{
    distances < 2 * plane || map < 2 * plane || positions < 3 * plane
}

// Refused are 1, 2 and 4, by the lengths of the lists that are kept.
pub fn start_answer(k: Block, distances: usize, map: usize, positions: usize) -> Result<(), Refusal>
    ensures { start_number result ≡ start_answer k (record { distances = distances; map = map; positions = positions }) }
{
    if bad_dimensions(k.dims) {
        return Err(Refusal::from(Fault::Dimensions));
    }
    if bad_box(k) {
        return Err(Refusal::from(Fault::Box));
    }
    let plane = (k.dims.x as usize) * (k.dims.y as usize);
    if short_memory(plane, distances, map, positions) {
        return Err(Refusal::Call(judge::Refusal::Map));
    }
    Ok(())
}
