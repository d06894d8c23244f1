// Document 02, request 8, for C: whether a grid and a box meet the premise under which the skin has no hole, by the grid and by one layer of it.
ghost use Rattle.std.specs.Prelude.{◌≡◌};
ghost use Rattle.grid.specs.Values.{as_floats};
ghost use Rattle.skin.specs.Answer.{answer_of};
ghost use Rattle.skin.specs.Scan.{answers, examined, examined_layer};
ghost use Rattle.bed.specs.Words12.{dims_asked, low_asked, high_asked};

use skin::Refusal;

// The outcome behind `enclosed`: false on a refusal.
fn tell(answer: Result<bool, Refusal>, enclosed: &mut bool) -> u32
    ensures { answers result enclosed.new ≡ answer_of answer }
{
    *enclosed = answer.unwrap_or(false);
    match answer {
        Ok(_) => 0,
        Err(refusal) => u32::from(refusal),
    }
}

// The answer number, 0 to 3, with the test's outcome behind `enclosed`: false on a refusal.
#[unsafe(no_mangle)]
pub extern "C" fn bed_is_enclosed(sdf: &[f32], words: &[u32; 12], enclosed: &mut bool) -> u32
    ensures { answers result enclosed.new ≡ examined sdf.now (dims_asked words.now) (low_asked words.now)
        (high_asked words.now) }
{
    let k = crate::words::block_of(words);
    tell(skin::is_enclosed(sdf, k.dims, k.low, k.high), enclosed)
}

// The same for signed 16-bit distances (document 02, request 5).
#[unsafe(no_mangle)]
pub extern "C" fn bed_is_enclosed_i16(sdf: &[i16], words: &[u32; 12], enclosed: &mut bool) -> u32
    ensures { answers result enclosed.new ≡ examined (as_floats sdf.now) (dims_asked words.now) (low_asked words.now)
        (high_asked words.now) }
{
    let k = crate::words::block_of(words);
    tell(skin::is_enclosed(sdf, k.dims, k.low, k.high), enclosed)
}

// And for signed 8-bit ones.
#[unsafe(no_mangle)]
pub extern "C" fn bed_is_enclosed_i8(sdf: &[i8], words: &[u32; 12], enclosed: &mut bool) -> u32
    ensures { answers result enclosed.new ≡ examined (as_floats sdf.now) (dims_asked words.now) (low_asked words.now)
        (high_asked words.now) }
{
    let k = crate::words::block_of(words);
    tell(skin::is_enclosed(sdf, k.dims, k.low, k.high), enclosed)
}

// ---- one layer of X·Y distances, the layer z of the box: the answer number, 0 to 3 or 77, with the test's outcome behind `enclosed`. Dimensions and box come as
// the twelve words of a `bed_box`, of which the last three are not read.

#[unsafe(no_mangle)]
pub extern "C" fn bed_is_enclosed_layer(
    layer: &[f32],
    words: &[u32; 12],
    z: u32,
    enclosed: &mut bool,
) -> u32
    ensures { answers result enclosed.new ≡ examined_layer layer.now (dims_asked words.now)
        (low_asked words.now) (high_asked words.now) z }
{
    let k = crate::words::block_of(words);
    tell(
        skin::layer::is_enclosed_layer(layer, k.dims, k.low, k.high, z),
        enclosed,
    )
}

#[unsafe(no_mangle)]
pub extern "C" fn bed_is_enclosed_layer_i16(
    layer: &[i16],
    words: &[u32; 12],
    z: u32,
    enclosed: &mut bool,
) -> u32
    ensures { answers result enclosed.new ≡ examined_layer (as_floats layer.now) (dims_asked words.now)
        (low_asked words.now) (high_asked words.now) z }
{
    let k = crate::words::block_of(words);
    tell(
        skin::layer::is_enclosed_layer(layer, k.dims, k.low, k.high, z),
        enclosed,
    )
}

#[unsafe(no_mangle)]
pub extern "C" fn bed_is_enclosed_layer_i8(
    layer: &[i8],
    words: &[u32; 12],
    z: u32,
    enclosed: &mut bool,
) -> u32
    ensures { answers result enclosed.new ≡ examined_layer (as_floats layer.now) (dims_asked words.now)
        (low_asked words.now) (high_asked words.now) z }
{
    let k = crate::words::block_of(words);
    tell(
        skin::layer::is_enclosed_layer(layer, k.dims, k.low, k.high, z),
        enclosed,
    )
}
