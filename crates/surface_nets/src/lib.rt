// The bed mesher: document 01's call, on a grid of floats or of whole numbers of 16 or of 8 bits, each meaning the float of the same value (document 02,
// request 5). The conditions 1 to 7 are tried in their order before anything is written; then each layer of cells is written, its vertices first and then its
// faces.
#![tactic(auto)]

ghost use Rattle.std.specs.Prelude.{◌≡◌};
ghost use Rattle.rules.specs.Call.{answer, afterwards, room};
ghost use Rattle.judge.specs.AsRules.{answer_of};
ghost use Rattle.whole_box.specs.LentLists.{buffers_before, buffers_after};
ghost use Rattle.surface_nets.specs.AsRules.{call_made};

use grid::values::Distance;
use grid::{Block, EachAxis, Extent};
use judge::Lengths;
pub use judge::{Refusal, Tally};

// Extracts the surface of the distances in the box from `low` to `high`, both corners included, of a grid of dimensions `dims`, and says V and I.
// Positions and normals take three floats a vertex, cells three numbers, strides one, crossings one byte; the map one for each number of the grid.
pub fn surface_nets<D: Distance>(
    sdf: &[D],
    dims: Extent,
    low: Extent,
    high: Extent,
    max_plane: EachAxis,
    positions: &mut [f32],
    normals: &mut [f32],
    cells: &mut [u32],
    strides: &mut [u32],
    crossings: &mut [u8],
    stride_to_index: &mut [u32],
    indices: &mut [u32],
) -> Result<Tally, Refusal>
    ensures result_value { answer_of result
        ≡ answer (call_made (D.floats sdf.now) dims low high max_plane)
        (room (buffers_before positions normals cells strides crossings stride_to_index indices)) }
    ensures indices_value { buffers_after positions normals cells strides crossings stride_to_index indices
        ≡ afterwards (call_made (D.floats sdf.now) dims low high max_plane) (buffers_before positions normals cells strides crossings stride_to_index indices) }
    ensures held { D.held sdf.now }
{
    D::told(sdf);
    let k = Block {
        dims,
        low,
        high,
        max_plane,
    };
    let room = Lengths {
        positions: positions.len(),
        normals: normals.len(),
        cells: cells.len(),
        strides: strides.len(),
        crossings: crossings.len(),
        map: stride_to_index.len(),
        indices: indices.len(),
    };
    let counts = judge::answer_for(sdf, k, room)?;
    whole_box::mesh_box(
        sdf,
        k,
        positions,
        normals,
        cells,
        strides,
        crossings,
        stride_to_index,
        indices,
    );
    Ok(counts)
}
