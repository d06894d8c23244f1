// Fixtures cut out of a grid, for C and Rust (document 02, request 11): a thin function over the crate fixtures. The file is lent memory; include/bed.h says the rest.
ghost use Rattle.std.specs.Prelude.{◌≡◌, length};
ghost use Rattle.grid.specs.Block.{point};
ghost use Rattle.fixtures.specs.Cut.{cut_answer, cut_grid};
ghost use Rattle.bed.specs.Words12.{dims_asked};

// The answer number: 0, 1, 3 or 51 to 56. Every answer but 0 changes nothing.
#[unsafe(no_mangle)]
pub extern "C" fn bed_cut_fixtures(file: &[u8], words: &[u32; 12], sdf: &mut [f32]) -> u32
    ensures value { result ≡ cut_answer file.now (point (dims_asked words.now)) (length sdf.old) }
    ensures sdf_after { sdf.new ≡ cut_grid file.now (point (dims_asked words.now)) sdf.old }
{
    let dims = crate::words::dims_of(words);
    fixtures::number_of(fixtures::cut_fixtures(file, dims, sdf))
}
