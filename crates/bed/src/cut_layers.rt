// Fixtures cut out of one layer of a grid, for C and Rust: of floats in its place, of whole numbers into floats of another list. Thin functions over the crates
// fixtures and fixture_widths. Dimensions come as the first three of the twelve words of a `bed_box`, of which the others are not read.
ghost use Rattle.std.specs.Prelude.{◌≡◌, length};
ghost use Rattle.grid.specs.Block.{point};
ghost use Rattle.grid.specs.Values.{as_floats};
ghost use Rattle.fixtures.specs.Layer.{layer_answer, cut_layer};
ghost use Rattle.fixture_widths.specs.Refused.{answer_of};
ghost use Rattle.fixture_widths.specs.Into.{into_answer, cut_into};
ghost use Rattle.bed.specs.Words12.{dims_asked};

use fixture_widths::Refusal;

// The answer number: 0, 1, 81, 3 or 51 to 56. Every answer but 0 changes nothing.
#[unsafe(no_mangle)]
pub extern "C" fn bed_cut_fixtures_layer(
    file: &[u8],
    words: &[u32; 12],
    z: u32,
    layer: &mut [f32],
) -> u32
    ensures value { result ≡ layer_answer file.now (point (dims_asked words.now)) z (length layer.old) }
    ensures layer_after { layer.new ≡ cut_layer file.now (point (dims_asked words.now)) z layer.old }
{
    let dims = crate::words::dims_of(words);
    fixtures::number_of(fixtures::cut_fixtures_layer(file, dims, z, layer))
}

fn number(answer: Result<(), Refusal>) -> u32
    ensures { result ≡ answer_of answer }
{
    match answer {
        Ok(()) => 0,
        Err(refusal) => u32::from(refusal),
    }
}

// The answer number: 0, 1, 81, 3, 51 to 56 or 82. Every answer but 0 changes nothing.
#[unsafe(no_mangle)]
pub extern "C" fn bed_cut_fixtures_layer_i16(
    file: &[u8],
    layer: &[i16],
    words: &[u32; 12],
    z: u32,
    out: &mut [f32],
) -> u32
    ensures value { result ≡ into_answer file.now (point (dims_asked words.now)) z (length (as_floats layer.now)) (length out.old) }
    ensures out_after { out.new ≡ cut_into file.now (point (dims_asked words.now)) z (as_floats layer.now) out.old }
{
    let dims = crate::words::dims_of(words);
    number(fixture_widths::cut_fixtures_layer(file, layer, dims, z, out))
}

#[unsafe(no_mangle)]
pub extern "C" fn bed_cut_fixtures_layer_i8(
    file: &[u8],
    layer: &[i8],
    words: &[u32; 12],
    z: u32,
    out: &mut [f32],
) -> u32
    ensures value { result ≡ into_answer file.now (point (dims_asked words.now)) z (length (as_floats layer.now)) (length out.old) }
    ensures out_after { out.new ≡ cut_into file.now (point (dims_asked words.now)) z (as_floats layer.now) out.old }
{
    let dims = crate::words::dims_of(words);
    number(fixture_widths::cut_fixtures_layer(file, layer, dims, z, out))
}
