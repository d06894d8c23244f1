// The bed layer by layer, for C and Rust (document 02, request 1): thin functions over crate layers. A state is fifteen numbers, so that whatever stands
// in its memory is a state; include/bed.h names each of them.
ghost use Rattle.std.specs.Prelude.{◌≡◌};
ghost use Rattle.layers.specs.Answer.{start_number, answer_of};
ghost use Rattle.layers.specs.Memory.{memory, lengths, start_answer};
ghost use Rattle.layers.specs.Offer.{left, room_in, layer_answer, state_after, leaves};
ghost use Rattle.layers.specs.Words.{state_of, words_on};
ghost use Rattle.layers.specs.Lent.{memory_before, memory_after, output_before, output_after};
ghost use Rattle.bed.specs.Boundary.{said};
ghost use Rattle.bed.specs.Layered.{words_started};
ghost use Rattle.bed.specs.Words12.{block_words};

use judge::Tally;
use layers::{Refusal, State};

fn number(answer: Result<(), Refusal>) -> u32
    ensures { result ≡ start_number answer }
{
    match answer {
        Ok(()) => 0,
        Err(refusal) => u32::from(refusal),
    }
}

// As the mesher's answers, with 8 beside them.
fn tell(answer: Result<Tally, Refusal>, vertex_count: &mut u64, index_count: &mut u64) -> u32
    ensures { said result vertex_count.new index_count.new ≡ answer_of answer }
{
    match answer {
        Ok(counts) => crate::answers::tell(Ok(counts), vertex_count, index_count),
        Err(Refusal::Call(refusal)) => crate::answers::tell(
            Err(refusal),
            vertex_count,
            index_count,
        ),
        Err(Refusal::Full) => {
            *vertex_count = 0;
            *index_count = 0;
            8
        }
    }
}

// The answer number, 0, 1, 2 or 4. The lent memory is only measured, and the state is written on 0 alone.
#[unsafe(no_mangle)]
pub extern "C" fn bed_layers_start(
    layers: &mut [u32; 15],
    words: &[u32; 12],
    kept_distances: &[f32],
    kept_map: &[u32],
    kept_positions: &[f32],
) -> u32
    ensures value { result ≡ start_answer (block_words words.now)
        (lengths (memory kept_distances.now kept_map.now kept_positions.now)) }
    ensures layers_after { layers.new ≡ words_started result
        (block_words words.now) layers.old }
{
    let k = crate::words::block_of(words);
    let distances = kept_distances.len();
    let map = kept_map.len();
    let positions = kept_positions.len();
    let answer = number(layers::start_answer(k, distances, map, positions));
    if answer == 0 {
        *layers = <[u32; 15]>::from(State::begin(k));
    }
    answer
}

// The answer number for one layer, with its V and I behind the last two.
#[unsafe(no_mangle)]
pub extern "C" fn bed_layers_offer(
    layers: &mut [u32; 15],
    layer: &[f32],
    kept_distances: &mut [f32],
    kept_map: &mut [u32],
    kept_positions: &mut [f32],
    positions: &mut [f32],
    normals: &mut [f32],
    cells: &mut [u32],
    strides: &mut [u32],
    crossings: &mut [u8],
    indices: &mut [u32],
    vertex_count: &mut u64,
    index_count: &mut u64,
) -> u32
    ensures index_count_after { said result vertex_count.new index_count.new
        ≡ layer_answer (state_of layers.old) layer.now (memory_before kept_distances kept_map kept_positions)
        (room_in (memory_before kept_distances kept_map kept_positions) (output_before positions normals cells strides crossings indices)) }
    ensures layers_after { layers.new ≡ words_on layers.old
        (state_after (state_of layers.old) layer.now (memory_before kept_distances kept_map kept_positions)
        (output_before positions normals cells strides crossings indices)) }
    ensures indices_value { left (memory_after kept_distances kept_map kept_positions) (output_after positions normals cells strides crossings indices)
        ≡ leaves (state_of layers.old) layer.now (memory_before kept_distances kept_map kept_positions)
        (output_before positions normals cells strides crossings indices) }
{
    let mut state = State::from(*layers);
    let answer = state.offer(
        layer,
        kept_distances,
        kept_map,
        kept_positions,
        positions,
        normals,
        cells,
        strides,
        crossings,
        indices,
    );
    layers::words::step(layers, state);
    tell(answer, vertex_count, index_count)
}
