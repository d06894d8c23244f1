// The level of the bed in each column of a box, for C and Rust: thin functions over crate levels. Dimensions and box come as the twelve words of a `bed_box`,
// of which the last three do not matter; include/bed.h says the rest.
ghost use Rattle.std.specs.Prelude.{◌≡◌, length};
ghost use Rattle.lists.specs.Floats.{Binary32};
ghost use Rattle.grid.specs.Block.{point};
ghost use Rattle.grid.specs.Values.{as_floats};
ghost use Rattle.levels.specs.Answers.{answer_of};
ghost use Rattle.levels.specs.Call.{box_from, levels_answer, levels_after, layer_answer, layer_after};
ghost use Rattle.bed.specs.Words12.{dims_asked, low_asked, high_asked};

use levels::Refusal;

fn number(answer: Result<(), Refusal>) -> u32
    ensures { result ≡ answer_of answer }
{
    match answer {
        Ok(()) => 0,
        Err(refusal) => u32::from(refusal),
    }
}

// ---- a grid in memory: the answer number, 0 to 3, 5 or 78

#[unsafe(no_mangle)]
pub extern "C" fn bed_levels(sdf: &[f32], words: &[u32; 12], out: &mut [f32]) -> u32
    ensures value { result ≡ levels_answer sdf.now (point (dims_asked words.now))
        (box_from (low_asked words.now) (high_asked words.now)) (length out.old) }
    ensures out_after { out.new ≡ levels_after sdf.now (point (dims_asked words.now))
        (box_from (low_asked words.now) (high_asked words.now)) out.old }
    ensures binary32 { Binary32 sdf.now }
{
    let k = crate::words::block_of(words);
    number(levels::levels(sdf, k.dims, k.low, k.high, out))
}

#[unsafe(no_mangle)]
pub extern "C" fn bed_levels_i16(sdf: &[i16], words: &[u32; 12], out: &mut [f32]) -> u32
    ensures value { result ≡ levels_answer (as_floats sdf.now) (point (dims_asked words.now))
        (box_from (low_asked words.now) (high_asked words.now)) (length out.old) }
    ensures out_after { out.new ≡ levels_after (as_floats sdf.now) (point (dims_asked words.now))
        (box_from (low_asked words.now) (high_asked words.now)) out.old }
{
    let k = crate::words::block_of(words);
    number(levels::levels(sdf, k.dims, k.low, k.high, out))
}

#[unsafe(no_mangle)]
pub extern "C" fn bed_levels_i8(sdf: &[i8], words: &[u32; 12], out: &mut [f32]) -> u32
    ensures value { result ≡ levels_answer (as_floats sdf.now) (point (dims_asked words.now))
        (box_from (low_asked words.now) (high_asked words.now)) (length out.old) }
    ensures out_after { out.new ≡ levels_after (as_floats sdf.now) (point (dims_asked words.now))
        (box_from (low_asked words.now) (high_asked words.now)) out.old }
{
    let k = crate::words::block_of(words);
    number(levels::levels(sdf, k.dims, k.low, k.high, out))
}

// ---- one layer, with the layer below it: the answer number, 0 to 3, 5, 77 or 78

#[unsafe(no_mangle)]
pub extern "C" fn bed_levels_layer(
    below: &[f32],
    layer: &[f32],
    words: &[u32; 12],
    z: u32,
    out: &mut [f32],
) -> u32
    ensures value { result ≡ layer_answer below.now layer.now (point (dims_asked words.now))
        (box_from (low_asked words.now) (high_asked words.now)) z (length out.old) }
    ensures out_after { out.new ≡ layer_after below.now layer.now (point (dims_asked words.now))
        (box_from (low_asked words.now) (high_asked words.now)) z out.old }
{
    let k = crate::words::block_of(words);
    number(levels::levels_layer(below, layer, k.dims, k.low, k.high, z, out))
}

#[unsafe(no_mangle)]
pub extern "C" fn bed_levels_layer_i16(
    below: &[i16],
    layer: &[i16],
    words: &[u32; 12],
    z: u32,
    out: &mut [f32],
) -> u32
    ensures value { result ≡ layer_answer (as_floats below.now) (as_floats layer.now) (point (dims_asked words.now))
        (box_from (low_asked words.now) (high_asked words.now)) z (length out.old) }
    ensures out_after { out.new ≡ layer_after (as_floats below.now) (as_floats layer.now) (point (dims_asked words.now))
        (box_from (low_asked words.now) (high_asked words.now)) z out.old }
{
    let k = crate::words::block_of(words);
    number(levels::levels_layer(below, layer, k.dims, k.low, k.high, z, out))
}

#[unsafe(no_mangle)]
pub extern "C" fn bed_levels_layer_i8(
    below: &[i8],
    layer: &[i8],
    words: &[u32; 12],
    z: u32,
    out: &mut [f32],
) -> u32
    ensures value { result ≡ layer_answer (as_floats below.now) (as_floats layer.now) (point (dims_asked words.now))
        (box_from (low_asked words.now) (high_asked words.now)) z (length out.old) }
    ensures out_after { out.new ≡ layer_after (as_floats below.now) (as_floats layer.now) (point (dims_asked words.now))
        (box_from (low_asked words.now) (high_asked words.now)) z out.old }
{
    let k = crate::words::block_of(words);
    number(levels::levels_layer(below, layer, k.dims, k.low, k.high, z, out))
}
