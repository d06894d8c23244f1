// What C links: an export for each function of the library bed, which it calls, with the same clauses. A crate is a library or a static library, so that
// theorems speak of bed, and this crate hands it to C; include/bed.h says the rest.
#![tactic(auto)]

mod asking;
mod closed;
mod cut;
mod cut_layers;
mod enclosed;
mod files;
mod layered;
mod levelled;
mod plans;
mod tallied;
mod version;
mod weighing;
mod weights;
mod wholes;

ghost use Rattle.std.specs.Prelude.{◌≡◌};
ghost use Rattle.rules.specs.Call.{answer, afterwards, room};
ghost use Rattle.whole_box.specs.LentLists.{buffers_before, buffers_after};
ghost use Rattle.lists.specs.Floats.{Binary32};
ghost use Rattle.bed.specs.Boundary.{asked, said};

// Document 01's call: the answer number, with V and I behind the last two.
#[unsafe(no_mangle)]
pub extern "C" fn bed_surface_nets(
    sdf: &[f32],
    words: &[u32; 12],
    positions: &mut [f32],
    normals: &mut [f32],
    cells: &mut [u32],
    strides: &mut [u32],
    crossings: &mut [u8],
    stride_to_index: &mut [u32],
    indices: &mut [u32],
    vertex_count: &mut u64,
    index_count: &mut u64,
) -> u32
    ensures index_count_after { said result vertex_count.new index_count.new
        ≡ answer (asked sdf.now words.now)
        (room (buffers_before positions normals cells strides crossings stride_to_index indices)) }
    ensures indices_value { buffers_after positions normals cells strides crossings stride_to_index indices
        ≡ afterwards (asked sdf.now words.now)
        (buffers_before positions normals cells strides crossings stride_to_index indices) }
    ensures binary32 { Binary32 sdf.now }
{
    bed::bed_surface_nets(
        sdf,
        words,
        positions,
        normals,
        cells,
        strides,
        crossings,
        stride_to_index,
        indices,
        vertex_count,
        index_count,
    )
}
