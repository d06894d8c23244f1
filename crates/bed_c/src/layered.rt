// The exports of bed/src/layered.rt: each calls the library's function, and its clauses are that function's.
ghost use Rattle.std.specs.Prelude.{◌≡◌};
ghost use Rattle.layers.specs.Memory.{memory, lengths, start_answer};
ghost use Rattle.layers.specs.Offer.{left, room_in, layer_answer, state_after, leaves};
ghost use Rattle.layers.specs.Words.{state_of, words_on};
ghost use Rattle.layers.specs.Lent.{memory_before, memory_after, output_before, output_after};
ghost use Rattle.bed.specs.Boundary.{said};
ghost use Rattle.bed.specs.Layered.{words_started};
ghost use Rattle.bed.specs.Words12.{block_words};

// The answer number, 0, 1, 2 or 4. The lent memory is only measured, and the state is written on 0 alone.
#[unsafe(no_mangle)]
pub extern "C" fn bed_layers_start(
    layers: &mut [u32; 15],
    words: &[u32; 12],
    kept_distances: &[f32],
    kept_map: &[u32],
    kept_positions: &[f32],
) -> u32
    ensures value { result ≡ start_answer (block_words words.now)
        (lengths (memory kept_distances.now kept_map.now kept_positions.now)) }
    ensures layers_after { layers.new ≡ words_started result
        (block_words words.now) layers.old }
{
    bed::layered::bed_layers_start(layers, words, kept_distances, kept_map, kept_positions)
}

// The answer number for one layer, with its V and I behind the last two.
#[unsafe(no_mangle)]
pub extern "C" fn bed_layers_offer(
    layers: &mut [u32; 15],
    layer: &[f32],
    kept_distances: &mut [f32],
    kept_map: &mut [u32],
    kept_positions: &mut [f32],
    positions: &mut [f32],
    normals: &mut [f32],
    cells: &mut [u32],
    strides: &mut [u32],
    crossings: &mut [u8],
    indices: &mut [u32],
    vertex_count: &mut u64,
    index_count: &mut u64,
) -> u32
    ensures index_count_after { said result vertex_count.new index_count.new
        ≡ layer_answer (state_of layers.old) layer.now (memory_before kept_distances kept_map kept_positions)
        (room_in (memory_before kept_distances kept_map kept_positions) (output_before positions normals cells strides crossings indices)) }
    ensures layers_after { layers.new ≡ words_on layers.old
        (state_after (state_of layers.old) layer.now (memory_before kept_distances kept_map kept_positions)
        (output_before positions normals cells strides crossings indices)) }
    ensures indices_value { left (memory_after kept_distances kept_map kept_positions) (output_after positions normals cells strides crossings indices)
        ≡ leaves (state_of layers.old) layer.now (memory_before kept_distances kept_map kept_positions)
        (output_before positions normals cells strides crossings indices) }
{
    bed::layered::bed_layers_offer(
        layers,
        layer,
        kept_distances,
        kept_map,
        kept_positions,
        positions,
        normals,
        cells,
        strides,
        crossings,
        indices,
        vertex_count,
        index_count,
    )
}
