// The exports of bed/src/tallied.rt: each calls the library's function, and its clauses are that function's.
ghost use Rattle.std.specs.Prelude.{◌≡◌};
ghost use Rattle.grid.specs.Values.{as_floats};
ghost use Rattle.tally.specs.Call.{tallied, layer_told};
ghost use Rattle.bed.specs.Words12.{block_words};
ghost use Rattle.bed.specs.Tallied.{counts_in, counts_left};

#[unsafe(no_mangle)]
pub extern "C" fn bed_tally(sdf: &[f32], words: &[u32; 12], counts: &mut [u64; 3]) -> u32
    ensures value { result ≡ (tallied sdf.now (block_words words.now)).answer }
    ensures counts_after { counts.new ≡ counts_left (tallied sdf.now (block_words words.now)) counts.old }
{
    bed::tallied::bed_tally(sdf, words, counts)
}

#[unsafe(no_mangle)]
pub extern "C" fn bed_tally_i16(sdf: &[i16], words: &[u32; 12], counts: &mut [u64; 3]) -> u32
    ensures value { result ≡ (tallied (as_floats sdf.now) (block_words words.now)).answer }
    ensures counts_after { counts.new ≡ counts_left (tallied (as_floats sdf.now) (block_words words.now)) counts.old }
{
    bed::tallied::bed_tally_i16(sdf, words, counts)
}

#[unsafe(no_mangle)]
pub extern "C" fn bed_tally_i8(sdf: &[i8], words: &[u32; 12], counts: &mut [u64; 3]) -> u32
    ensures value { result ≡ (tallied (as_floats sdf.now) (block_words words.now)).answer }
    ensures counts_after { counts.new ≡ counts_left (tallied (as_floats sdf.now) (block_words words.now)) counts.old }
{
    bed::tallied::bed_tally_i8(sdf, words, counts)
}

#[unsafe(no_mangle)]
pub extern "C" fn bed_tally_layer(
    below: &[f32],
    layer: &[f32],
    words: &[u32; 12],
    z: u32,
    counts: &mut [u64; 3],
) -> u32
    ensures value { result ≡ (layer_told below.now layer.now (block_words words.now) z (counts_in counts.old)).answer }
    ensures counts_after { counts.new
        ≡ counts_left (layer_told below.now layer.now (block_words words.now) z (counts_in counts.old)) counts.old }
{
    bed::tallied::bed_tally_layer(below, layer, words, z, counts)
}

#[unsafe(no_mangle)]
pub extern "C" fn bed_tally_layer_i16(
    below: &[i16],
    layer: &[i16],
    words: &[u32; 12],
    z: u32,
    counts: &mut [u64; 3],
) -> u32
    ensures value { result ≡ (layer_told (as_floats below.now) (as_floats layer.now) (block_words words.now) z (counts_in counts.old)).answer }
    ensures counts_after { counts.new
        ≡ counts_left (layer_told (as_floats below.now) (as_floats layer.now) (block_words words.now) z (counts_in counts.old))
        counts.old }
{
    bed::tallied::bed_tally_layer_i16(below, layer, words, z, counts)
}

#[unsafe(no_mangle)]
pub extern "C" fn bed_tally_layer_i8(
    below: &[i8],
    layer: &[i8],
    words: &[u32; 12],
    z: u32,
    counts: &mut [u64; 3],
) -> u32
    ensures value { result ≡ (layer_told (as_floats below.now) (as_floats layer.now) (block_words words.now) z (counts_in counts.old)).answer }
    ensures counts_after { counts.new
        ≡ counts_left (layer_told (as_floats below.now) (as_floats layer.now) (block_words words.now) z (counts_in counts.old))
        counts.old }
{
    bed::tallied::bed_tally_layer_i8(below, layer, words, z, counts)
}
