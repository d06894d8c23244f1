// The answer alone, for C and Rust: what bed_surface_nets answers on this grid with lists of these lengths, and so how much to lend. A thin function over
// judge, which lends no list; include/bed.h says the rest.
ghost use Rattle.std.specs.Prelude.{◌≡◌};
ghost use Rattle.rules.specs.Call.{answer};
ghost use Rattle.bed.specs.Boundary.{asked, room_asked, said};

use judge::Lengths;

// The answer number, with V and I behind the last two.
#[unsafe(no_mangle)]
pub extern "C" fn bed_answer(
    sdf: &[f32],
    words: &[u32; 12],
    positions_len: u64,
    normals_len: u64,
    cells_len: u64,
    strides_len: u64,
    crossings_len: u64,
    stride_to_index_len: u64,
    indices_len: u64,
    vertex_count: &mut u64,
    index_count: &mut u64,
) -> u32
    ensures { said result vertex_count.new index_count.new
        ≡ answer (asked sdf.now words.now)
        (room_asked positions_len normals_len cells_len strides_len crossings_len stride_to_index_len indices_len) }
{
    let k = crate::words::block_of(words);
    let room = Lengths {
        positions: positions_len as usize,
        normals: normals_len as usize,
        cells: cells_len as usize,
        strides: strides_len as usize,
        crossings: crossings_len as usize,
        map: stride_to_index_len as usize,
        indices: indices_len as usize,
    };
    let answer = judge::answer_for(sdf, k, room);
    crate::answers::tell(answer, vertex_count, index_count)
}
