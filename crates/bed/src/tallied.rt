// Cells counted below and on the surface, for C and Rust: thin functions over crate tally. Dimensions, box and max plane come as the twelve words of a `bed_box`, and the
// counts stand in the three words of a `bed_counts`; include/bed.h says the rest.
ghost use Rattle.std.specs.Prelude.{◌≡◌};
ghost use Rattle.grid.specs.Values.{as_floats};
ghost use Rattle.tally.specs.Call.{told_of, tallied, layer_told};
ghost use Rattle.bed.specs.Words12.{block_words};
ghost use Rattle.bed.specs.Tallied.{counts_in, counts_left};

use tally::{Counts, Refusal};

fn counts_of(words: &[u64; 3]) -> Counts
    ensures { result ≡ counts_in words.now }
{
    Counts {
        whole: words[0],
        vertices: words[1],
        indices: words[2],
    }
}

// The counts are written where there are any, and else stay.
fn leave(answer: Result<Counts, Refusal>, counts: &mut [u64; 3]) -> u32
    ensures value { (kept : Counts) → result ≡ (told_of kept answer).answer }
    ensures counts_after { (kept : Counts) → counts.new ≡ counts_left (told_of kept answer) counts.old }
{
    match answer {
        Ok(c) => {
            *counts = [c.whole, c.vertices, c.indices];
            0
        }
        Err(refusal) => u32::from(refusal),
    }
}

// ---- a grid in memory: the answer number, 0 to 3 or 5

#[unsafe(no_mangle)]
pub extern "C" fn bed_tally(sdf: &[f32], words: &[u32; 12], counts: &mut [u64; 3]) -> u32
    ensures value { result ≡ (tallied sdf.now (block_words words.now)).answer }
    ensures counts_after { counts.new ≡ counts_left (tallied sdf.now (block_words words.now)) counts.old }
{
    let k = crate::words::block_of(words);
    let t = tally::tally(sdf, k);
    leave(t, counts)
}

#[unsafe(no_mangle)]
pub extern "C" fn bed_tally_i16(sdf: &[i16], words: &[u32; 12], counts: &mut [u64; 3]) -> u32
    ensures value { result ≡ (tallied (as_floats sdf.now) (block_words words.now)).answer }
    ensures counts_after { counts.new ≡ counts_left (tallied (as_floats sdf.now) (block_words words.now)) counts.old }
{
    let k = crate::words::block_of(words);
    let t = tally::tally(sdf, k);
    leave(t, counts)
}

#[unsafe(no_mangle)]
pub extern "C" fn bed_tally_i8(sdf: &[i8], words: &[u32; 12], counts: &mut [u64; 3]) -> u32
    ensures value { result ≡ (tallied (as_floats sdf.now) (block_words words.now)).answer }
    ensures counts_after { counts.new ≡ counts_left (tallied (as_floats sdf.now) (block_words words.now)) counts.old }
{
    let k = crate::words::block_of(words);
    let t = tally::tally(sdf, k);
    leave(t, counts)
}

// ---- one layer, with the layer below it, on the counts so far: the answer number, 0 to 3, 5, 91 or 92

#[unsafe(no_mangle)]
pub extern "C" fn bed_tally_layer(
    below: &[f32],
    layer: &[f32],
    words: &[u32; 12],
    z: u32,
    counts: &mut [u64; 3],
) -> u32
    ensures value { result ≡ (layer_told below.now layer.now (block_words words.now) z (counts_in counts.old)).answer }
    ensures counts_after { counts.new
        ≡ counts_left (layer_told below.now layer.now (block_words words.now) z (counts_in counts.old)) counts.old }
{
    let k = crate::words::block_of(words);
    let so_far = counts_of(counts);
    let t = tally::tally_layer(below, layer, k, z, so_far);
    leave(t, counts)
}

#[unsafe(no_mangle)]
pub extern "C" fn bed_tally_layer_i16(
    below: &[i16],
    layer: &[i16],
    words: &[u32; 12],
    z: u32,
    counts: &mut [u64; 3],
) -> u32
    ensures value { result ≡ (layer_told (as_floats below.now) (as_floats layer.now) (block_words words.now) z (counts_in counts.old)).answer }
    ensures counts_after { counts.new
        ≡ counts_left (layer_told (as_floats below.now) (as_floats layer.now) (block_words words.now) z (counts_in counts.old))
        counts.old }
{
    let k = crate::words::block_of(words);
    let so_far = counts_of(counts);
    let t = tally::tally_layer(below, layer, k, z, so_far);
    leave(t, counts)
}

#[unsafe(no_mangle)]
pub extern "C" fn bed_tally_layer_i8(
    below: &[i8],
    layer: &[i8],
    words: &[u32; 12],
    z: u32,
    counts: &mut [u64; 3],
) -> u32
    ensures value { result ≡ (layer_told (as_floats below.now) (as_floats layer.now) (block_words words.now) z (counts_in counts.old)).answer }
    ensures counts_after { counts.new
        ≡ counts_left (layer_told (as_floats below.now) (as_floats layer.now) (block_words words.now) z (counts_in counts.old))
        counts.old }
{
    let k = crate::words::block_of(words);
    let so_far = counts_of(counts);
    let t = tally::tally_layer(below, layer, k, z, so_far);
    leave(t, counts)
}
