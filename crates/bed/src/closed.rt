// A bed closed by a border of far points, for C and Rust: thin functions over crate closing. Dimensions come as the twelve words of a `bed_box`, of which
// only the first three are read; include/bed.h says the rest.
ghost use Rattle.std.specs.Prelude.{◌≡◌, length};
ghost use Rattle.grid.specs.Block.{point};
ghost use Rattle.grid.specs.Values.{as_floats};
ghost use Rattle.closing.specs.Refused.{answer_of};
ghost use Rattle.closing.specs.Answers.{close_answer, closed_room, layer_answer, layer_room};
ghost use Rattle.closing.specs.Wall.{deepest, wall_for};
ghost use Rattle.bed.specs.Words12.{dims_asked};

use closing::Refusal;

fn number(answer: Result<(), Refusal>) -> u32
    ensures { result ≡ answer_of answer }
{
    match answer {
        Ok(()) => 0,
        Err(refusal) => u32::from(refusal),
    }
}

// ---- a grid in memory: the answer number, 0, 1, 3 or 72 to 74

#[unsafe(no_mangle)]
pub extern "C" fn bed_close(sdf: &[f32], words: &[u32; 12], wall: f32, closed: &mut [f32]) -> u32
    ensures value { result ≡ close_answer (point (dims_asked words.now)) (length sdf.now) wall (length closed.old) }
    ensures closed_after { closed.new ≡ closed_room (point (dims_asked words.now)) wall sdf.now closed.old }
{
    let dims = crate::words::dims_of(words);
    number(closing::close(sdf, dims, wall, closed))
}

#[unsafe(no_mangle)]
pub extern "C" fn bed_close_i16(
    sdf: &[i16],
    words: &[u32; 12],
    wall: f32,
    closed: &mut [f32],
) -> u32
    ensures value { result ≡ close_answer (point (dims_asked words.now)) (length sdf.now) wall (length closed.old) }
    ensures closed_after { closed.new ≡ closed_room (point (dims_asked words.now)) wall (as_floats sdf.now) closed.old }
{
    let dims = crate::words::dims_of(words);
    number(closing::close(sdf, dims, wall, closed))
}

#[unsafe(no_mangle)]
pub extern "C" fn bed_close_i8(sdf: &[i8], words: &[u32; 12], wall: f32, closed: &mut [f32]) -> u32
    ensures value { result ≡ close_answer (point (dims_asked words.now)) (length sdf.now) wall (length closed.old) }
    ensures closed_after { closed.new ≡ closed_room (point (dims_asked words.now)) wall (as_floats sdf.now) closed.old }
{
    let dims = crate::words::dims_of(words);
    number(closing::close(sdf, dims, wall, closed))
}

// ---- one layer at a time: the answer number, 0, 1, 3 or 71 to 74

#[unsafe(no_mangle)]
pub extern "C" fn bed_close_layer(
    layer: &[f32],
    words: &[u32; 12],
    z: u32,
    wall: f32,
    closed: &mut [f32],
) -> u32
    ensures value { result ≡ layer_answer (point (dims_asked words.now)) z (length layer.now) wall (length closed.old) }
    ensures closed_after { closed.new ≡ layer_room (point (dims_asked words.now)) wall z layer.now closed.old }
{
    let dims = crate::words::dims_of(words);
    number(closing::close_layer(layer, dims, z, wall, closed))
}

#[unsafe(no_mangle)]
pub extern "C" fn bed_close_layer_i16(
    layer: &[i16],
    words: &[u32; 12],
    z: u32,
    wall: f32,
    closed: &mut [f32],
) -> u32
    ensures value { result ≡ layer_answer (point (dims_asked words.now)) z (length layer.now) wall (length closed.old) }
    ensures closed_after { closed.new ≡ layer_room (point (dims_asked words.now)) wall z (as_floats layer.now) closed.old }
{
    let dims = crate::words::dims_of(words);
    number(closing::close_layer(layer, dims, z, wall, closed))
}

#[unsafe(no_mangle)]
pub extern "C" fn bed_close_layer_i8(
    layer: &[i8],
    words: &[u32; 12],
    z: u32,
    wall: f32,
    closed: &mut [f32],
) -> u32
    ensures value { result ≡ layer_answer (point (dims_asked words.now)) z (length layer.now) wall (length closed.old) }
    ensures closed_after { closed.new ≡ layer_room (point (dims_asked words.now)) wall z (as_floats layer.now) closed.old }
{
    let dims = crate::words::dims_of(words);
    number(closing::close_layer(layer, dims, z, wall, closed))
}

// ---- the wall

#[unsafe(no_mangle)]
pub extern "C" fn bed_deepest(so_far: f32, sdf: &[f32]) -> f32
    ensures { result ≡ deepest so_far sdf.now }
{
    closing::deepest(so_far, sdf)
}

#[unsafe(no_mangle)]
pub extern "C" fn bed_deepest_i16(so_far: f32, sdf: &[i16]) -> f32
    ensures { result ≡ deepest so_far (as_floats sdf.now) }
{
    closing::deepest(so_far, sdf)
}

#[unsafe(no_mangle)]
pub extern "C" fn bed_deepest_i8(so_far: f32, sdf: &[i8]) -> f32
    ensures { result ≡ deepest so_far (as_floats sdf.now) }
{
    closing::deepest(so_far, sdf)
}

#[unsafe(no_mangle)]
pub extern "C" fn bed_wall_for(deepest: f32) -> f32
    ensures { result ≡ wall_for deepest }
{
    closing::wall_for(deepest)
}
