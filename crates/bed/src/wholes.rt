// Document 01's call over whole numbers (document 02, request 5), and its answer alone: thin functions as those over floats. include/bed.h says the rest.
ghost use Rattle.std.specs.Prelude.{◌≡◌};
ghost use Rattle.rules.specs.Call.{answer, afterwards, room};
ghost use Rattle.whole_box.specs.LentLists.{buffers_before, buffers_after};
ghost use Rattle.grid.specs.Values.{as_floats, Wholes};
ghost use Rattle.bed.specs.Boundary.{asked, room_asked, said};

use judge::Lengths;

// Signed 16-bit distances.
#[unsafe(no_mangle)]
pub extern "C" fn bed_surface_nets_i16(
    sdf: &[i16],
    words: &[u32; 12],
    positions: &mut [f32],
    normals: &mut [f32],
    cells: &mut [u32],
    strides: &mut [u32],
    crossings: &mut [u8],
    stride_to_index: &mut [u32],
    indices: &mut [u32],
    vertex_count: &mut u64,
    index_count: &mut u64,
) -> u32
    ensures index_count_after { said result vertex_count.new index_count.new
        ≡ answer (asked (as_floats sdf.now) words.now)
        (room (buffers_before positions normals cells strides crossings stride_to_index indices)) }
    ensures indices_value { buffers_after positions normals cells strides crossings stride_to_index indices
        ≡ afterwards (asked (as_floats sdf.now) words.now)
        (buffers_before positions normals cells strides crossings stride_to_index indices) }
    ensures wholes { Wholes 16 sdf.now }
{
    let k = crate::words::block_of(words);
    let answer = surface_nets::surface_nets(
        sdf,
        k.dims,
        k.low,
        k.high,
        k.max_plane,
        positions,
        normals,
        cells,
        strides,
        crossings,
        stride_to_index,
        indices,
    );
    crate::answers::tell(answer, vertex_count, index_count)
}

// Signed 8-bit distances.
#[unsafe(no_mangle)]
pub extern "C" fn bed_surface_nets_i8(
    sdf: &[i8],
    words: &[u32; 12],
    positions: &mut [f32],
    normals: &mut [f32],
    cells: &mut [u32],
    strides: &mut [u32],
    crossings: &mut [u8],
    stride_to_index: &mut [u32],
    indices: &mut [u32],
    vertex_count: &mut u64,
    index_count: &mut u64,
) -> u32
    ensures index_count_after { said result vertex_count.new index_count.new
        ≡ answer (asked (as_floats sdf.now) words.now)
        (room (buffers_before positions normals cells strides crossings stride_to_index indices)) }
    ensures indices_value { buffers_after positions normals cells strides crossings stride_to_index indices
        ≡ afterwards (asked (as_floats sdf.now) words.now)
        (buffers_before positions normals cells strides crossings stride_to_index indices) }
    ensures wholes { Wholes 8 sdf.now }
{
    let k = crate::words::block_of(words);
    let answer = surface_nets::surface_nets(
        sdf,
        k.dims,
        k.low,
        k.high,
        k.max_plane,
        positions,
        normals,
        cells,
        strides,
        crossings,
        stride_to_index,
        indices,
    );
    crate::answers::tell(answer, vertex_count, index_count)
}

// The answer alone, of 16-bit numbers.
#[unsafe(no_mangle)]
pub extern "C" fn bed_answer_i16(
    sdf: &[i16],
    words: &[u32; 12],
    positions_len: u64,
    normals_len: u64,
    cells_len: u64,
    strides_len: u64,
    crossings_len: u64,
    stride_to_index_len: u64,
    indices_len: u64,
    vertex_count: &mut u64,
    index_count: &mut u64,
) -> u32
    ensures { said result vertex_count.new index_count.new
        ≡ answer (asked (as_floats sdf.now) words.now)
        (room_asked positions_len normals_len cells_len strides_len crossings_len stride_to_index_len indices_len) }
{
    let k = crate::words::block_of(words);
    let room = Lengths {
        positions: positions_len as usize,
        normals: normals_len as usize,
        cells: cells_len as usize,
        strides: strides_len as usize,
        crossings: crossings_len as usize,
        map: stride_to_index_len as usize,
        indices: indices_len as usize,
    };
    let answer = judge::answer_for(sdf, k, room);
    crate::answers::tell(answer, vertex_count, index_count)
}

// The answer alone, of 8-bit numbers.
#[unsafe(no_mangle)]
pub extern "C" fn bed_answer_i8(
    sdf: &[i8],
    words: &[u32; 12],
    positions_len: u64,
    normals_len: u64,
    cells_len: u64,
    strides_len: u64,
    crossings_len: u64,
    stride_to_index_len: u64,
    indices_len: u64,
    vertex_count: &mut u64,
    index_count: &mut u64,
) -> u32
    ensures { said result vertex_count.new index_count.new
        ≡ answer (asked (as_floats sdf.now) words.now)
        (room_asked positions_len normals_len cells_len strides_len crossings_len stride_to_index_len indices_len) }
{
    let k = crate::words::block_of(words);
    let room = Lengths {
        positions: positions_len as usize,
        normals: normals_len as usize,
        cells: cells_len as usize,
        strides: strides_len as usize,
        crossings: crossings_len as usize,
        map: stride_to_index_len as usize,
        indices: indices_len as usize,
    };
    let answer = judge::answer_for(sdf, k, room);
    crate::answers::tell(answer, vertex_count, index_count)
}
