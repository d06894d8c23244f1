// The exports of bed/src/enclosed.rt: each calls the library's function, and its clauses are that function's.
ghost use Rattle.std.specs.Prelude.{◌≡◌};
ghost use Rattle.grid.specs.Values.{as_floats};
ghost use Rattle.skin.specs.Scan.{answers, examined, examined_layer};
ghost use Rattle.bed.specs.Words12.{dims_asked, low_asked, high_asked};

// The answer number, 0 to 3, with the test's outcome behind `enclosed`: false on a refusal.
#[unsafe(no_mangle)]
pub extern "C" fn bed_is_enclosed(sdf: &[f32], words: &[u32; 12], enclosed: &mut bool) -> u32
    ensures { answers result enclosed.new ≡ examined sdf.now (dims_asked words.now) (low_asked words.now)
        (high_asked words.now) }
{
    bed::enclosed::bed_is_enclosed(sdf, words, enclosed)
}

// The same for signed 16-bit distances (document 02, request 5).
#[unsafe(no_mangle)]
pub extern "C" fn bed_is_enclosed_i16(sdf: &[i16], words: &[u32; 12], enclosed: &mut bool) -> u32
    ensures { answers result enclosed.new ≡ examined (as_floats sdf.now) (dims_asked words.now) (low_asked words.now)
        (high_asked words.now) }
{
    bed::enclosed::bed_is_enclosed_i16(sdf, words, enclosed)
}

// And for signed 8-bit ones.
#[unsafe(no_mangle)]
pub extern "C" fn bed_is_enclosed_i8(sdf: &[i8], words: &[u32; 12], enclosed: &mut bool) -> u32
    ensures { answers result enclosed.new ≡ examined (as_floats sdf.now) (dims_asked words.now) (low_asked words.now)
        (high_asked words.now) }
{
    bed::enclosed::bed_is_enclosed_i8(sdf, words, enclosed)
}

#[unsafe(no_mangle)]
pub extern "C" fn bed_is_enclosed_layer(
    layer: &[f32],
    words: &[u32; 12],
    z: u32,
    enclosed: &mut bool,
) -> u32
    ensures { answers result enclosed.new ≡ examined_layer layer.now (dims_asked words.now)
        (low_asked words.now) (high_asked words.now) z }
{
    bed::enclosed::bed_is_enclosed_layer(layer, words, z, enclosed)
}

#[unsafe(no_mangle)]
pub extern "C" fn bed_is_enclosed_layer_i16(
    layer: &[i16],
    words: &[u32; 12],
    z: u32,
    enclosed: &mut bool,
) -> u32
    ensures { answers result enclosed.new ≡ examined_layer (as_floats layer.now) (dims_asked words.now)
        (low_asked words.now) (high_asked words.now) z }
{
    bed::enclosed::bed_is_enclosed_layer_i16(layer, words, z, enclosed)
}

#[unsafe(no_mangle)]
pub extern "C" fn bed_is_enclosed_layer_i8(
    layer: &[i8],
    words: &[u32; 12],
    z: u32,
    enclosed: &mut bool,
) -> u32
    ensures { answers result enclosed.new ≡ examined_layer (as_floats layer.now) (dims_asked words.now)
        (low_asked words.now) (high_asked words.now) z }
{
    bed::enclosed::bed_is_enclosed_layer_i8(layer, words, z, enclosed)
}
