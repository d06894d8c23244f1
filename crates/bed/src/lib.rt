// The functions that C and Rust link: thin, and nothing else. A slice is a pointer and then a length; include/bed.h says the rest.
#![tactic(auto)]

mod answers;
pub mod asking;
pub mod closed;
pub mod cut;
pub mod cut_layers;
pub mod enclosed;
pub mod files;
pub mod layered;
pub mod levelled;
pub mod plans;
pub mod tallied;
pub mod version;
pub mod weighing;
pub mod weights;
pub mod wholes;
mod words;

ghost use Rattle.std.specs.Prelude.{◌≡◌};
ghost use Rattle.rules.specs.Call.{answer, afterwards, room};
ghost use Rattle.whole_box.specs.LentLists.{buffers_before, buffers_after};
ghost use Rattle.lists.specs.Floats.{Binary32};
ghost use Rattle.bed.specs.Boundary.{asked, said};

// Document 01's call: the answer number, with V and I behind the last two.
#[unsafe(no_mangle)]
pub extern "C" fn bed_surface_nets(
    sdf: &[f32],
    words: &[u32; 12],
    positions: &mut [f32],
    normals: &mut [f32],
    cells: &mut [u32],
    strides: &mut [u32],
    crossings: &mut [u8],
    stride_to_index: &mut [u32],
    indices: &mut [u32],
    vertex_count: &mut u64,
    index_count: &mut u64,
) -> u32
    ensures index_count_after { said result vertex_count.new index_count.new
        ≡ answer (asked sdf.now words.now)
        (room (buffers_before positions normals cells strides crossings stride_to_index indices)) }
    ensures indices_value { buffers_after positions normals cells strides crossings stride_to_index indices
        ≡ afterwards (asked sdf.now words.now)
        (buffers_before positions normals cells strides crossings stride_to_index indices) }
    ensures binary32 { Binary32 sdf.now }
{
    let k = crate::words::block_of(words);
    let answer = surface_nets::surface_nets(
        sdf,
        k.dims,
        k.low,
        k.high,
        k.max_plane,
        positions,
        normals,
        cells,
        strides,
        crossings,
        stride_to_index,
        indices,
    );
    answers::tell(answer, vertex_count, index_count)
}
