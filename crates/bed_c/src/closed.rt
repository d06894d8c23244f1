// The exports of bed/src/closed.rt: each calls the library's function, and its clauses are that function's.
ghost use Rattle.std.specs.Prelude.{◌≡◌, length};
ghost use Rattle.grid.specs.Block.{point};
ghost use Rattle.grid.specs.Values.{as_floats};
ghost use Rattle.closing.specs.Answers.{close_answer, closed_room, layer_answer, layer_room};
ghost use Rattle.closing.specs.Wall.{deepest, wall_for};
ghost use Rattle.bed.specs.Words12.{dims_asked};

#[unsafe(no_mangle)]
pub extern "C" fn bed_close(sdf: &[f32], words: &[u32; 12], wall: f32, closed: &mut [f32]) -> u32
    ensures value { result ≡ close_answer (point (dims_asked words.now)) (length sdf.now) wall (length closed.old) }
    ensures closed_after { closed.new ≡ closed_room (point (dims_asked words.now)) wall sdf.now closed.old }
{
    bed::closed::bed_close(sdf, words, wall, closed)
}

#[unsafe(no_mangle)]
pub extern "C" fn bed_close_i16(
    sdf: &[i16],
    words: &[u32; 12],
    wall: f32,
    closed: &mut [f32],
) -> u32
    ensures value { result ≡ close_answer (point (dims_asked words.now)) (length sdf.now) wall (length closed.old) }
    ensures closed_after { closed.new ≡ closed_room (point (dims_asked words.now)) wall (as_floats sdf.now) closed.old }
{
    bed::closed::bed_close_i16(sdf, words, wall, closed)
}

#[unsafe(no_mangle)]
pub extern "C" fn bed_close_i8(sdf: &[i8], words: &[u32; 12], wall: f32, closed: &mut [f32]) -> u32
    ensures value { result ≡ close_answer (point (dims_asked words.now)) (length sdf.now) wall (length closed.old) }
    ensures closed_after { closed.new ≡ closed_room (point (dims_asked words.now)) wall (as_floats sdf.now) closed.old }
{
    bed::closed::bed_close_i8(sdf, words, wall, closed)
}

#[unsafe(no_mangle)]
pub extern "C" fn bed_close_layer(
    layer: &[f32],
    words: &[u32; 12],
    z: u32,
    wall: f32,
    closed: &mut [f32],
) -> u32
    ensures value { result ≡ layer_answer (point (dims_asked words.now)) z (length layer.now) wall (length closed.old) }
    ensures closed_after { closed.new ≡ layer_room (point (dims_asked words.now)) wall z layer.now closed.old }
{
    bed::closed::bed_close_layer(layer, words, z, wall, closed)
}

#[unsafe(no_mangle)]
pub extern "C" fn bed_close_layer_i16(
    layer: &[i16],
    words: &[u32; 12],
    z: u32,
    wall: f32,
    closed: &mut [f32],
) -> u32
    ensures value { result ≡ layer_answer (point (dims_asked words.now)) z (length layer.now) wall (length closed.old) }
    ensures closed_after { closed.new ≡ layer_room (point (dims_asked words.now)) wall z (as_floats layer.now) closed.old }
{
    bed::closed::bed_close_layer_i16(layer, words, z, wall, closed)
}

#[unsafe(no_mangle)]
pub extern "C" fn bed_close_layer_i8(
    layer: &[i8],
    words: &[u32; 12],
    z: u32,
    wall: f32,
    closed: &mut [f32],
) -> u32
    ensures value { result ≡ layer_answer (point (dims_asked words.now)) z (length layer.now) wall (length closed.old) }
    ensures closed_after { closed.new ≡ layer_room (point (dims_asked words.now)) wall z (as_floats layer.now) closed.old }
{
    bed::closed::bed_close_layer_i8(layer, words, z, wall, closed)
}

#[unsafe(no_mangle)]
pub extern "C" fn bed_deepest(so_far: f32, sdf: &[f32]) -> f32
    ensures { result ≡ deepest so_far sdf.now }
{
    bed::closed::bed_deepest(so_far, sdf)
}

#[unsafe(no_mangle)]
pub extern "C" fn bed_deepest_i16(so_far: f32, sdf: &[i16]) -> f32
    ensures { result ≡ deepest so_far (as_floats sdf.now) }
{
    bed::closed::bed_deepest_i16(so_far, sdf)
}

#[unsafe(no_mangle)]
pub extern "C" fn bed_deepest_i8(so_far: f32, sdf: &[i8]) -> f32
    ensures { result ≡ deepest so_far (as_floats sdf.now) }
{
    bed::closed::bed_deepest_i8(so_far, sdf)
}

#[unsafe(no_mangle)]
pub extern "C" fn bed_wall_for(deepest: f32) -> f32
    ensures { result ≡ wall_for deepest }
{
    bed::closed::bed_wall_for(deepest)
}
