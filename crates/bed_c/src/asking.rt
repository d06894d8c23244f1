// The exports of bed/src/asking.rt: each calls the library's function, and its clauses are that function's.
ghost use Rattle.std.specs.Prelude.{◌≡◌};
ghost use Rattle.rules.specs.Call.{answer};
ghost use Rattle.bed.specs.Boundary.{asked, room_asked, said};

// The answer number, with V and I behind the last two.
#[unsafe(no_mangle)]
pub extern "C" fn bed_answer(
    sdf: &[f32],
    words: &[u32; 12],
    positions_len: u64,
    normals_len: u64,
    cells_len: u64,
    strides_len: u64,
    crossings_len: u64,
    stride_to_index_len: u64,
    indices_len: u64,
    vertex_count: &mut u64,
    index_count: &mut u64,
) -> u32
    ensures { said result vertex_count.new index_count.new
        ≡ answer (asked sdf.now words.now)
        (room_asked positions_len normals_len cells_len strides_len crossings_len stride_to_index_len indices_len) }
{
    bed::asking::bed_answer(
        sdf,
        words,
        positions_len,
        normals_len,
        cells_len,
        strides_len,
        crossings_len,
        stride_to_index_len,
        indices_len,
        vertex_count,
        index_count,
    )
}
