// The records of a mesh, written into a lent file, and the tests that come before.
ghost use Rattle.std.specs.Prelude.{◌≡◌, ◌+◌, ◌*◌, ◌/◌, ◌<◌, ◌≤◌, T, length, get_or};
ghost use Rattle.std.specs.Float.{nan};
ghost use Rattle.lists.specs.Lists.{some, over};
ghost use Rattle.mesh_file.specs.Record.{each, laid};
ghost use Rattle.mesh_file.specs.Mesh.{mesh, finite, AllFinite, bits_at, vertex_words, vertex_record, triangle_record, file_of};
ghost use Rattle.mesh_file.specs.Writing.{bad_lengths, no_vertex, not_finite, wrote_result, write_answer, writing};

use mesh_record::{Refusal, finite_bits, write_record};

// ---- writing

fn is_finite(x: f32) -> bool
    ensures { result ≡ finite x }
{
    !x.is_nan() && finite_bits(x.to_bits())
}

fn bits_at(xs: &[f32], i: usize) -> u32
    requires i_in_bounds { i < length xs.now }
    requires t { T (finite (get_or xs.now i nan)) }
    ensures { result ≡ bits_at xs.now i }
{
    xs[i].to_bits()
}

fn write_vertex(positions: &[f32], normals: &[f32], i: usize, file: &mut [u8], at: usize)
    requires i_in_bounds { i + 3 ≤ length positions.now }
    requires i_in_bounds_2 { i + 3 ≤ length normals.now }
    requires all_finite { AllFinite positions.now }
    requires all_finite_2 { AllFinite normals.now }
    requires at_in_bounds { at + 32 ≤ length file.old }
    ensures { file.new ≡ laid (vertex_words positions.now normals.now i) at file.old }
{
    let vertex = [
        1,
        bits_at(positions, i),
        bits_at(positions, i + 1),
        bits_at(positions, i + 2),
        bits_at(normals, i),
        bits_at(normals, i + 1),
        bits_at(normals, i + 2),
    ];
    write_record(file, at, vertex);
}

fn write_vertices(positions: &[f32], normals: &[f32], n: usize, file: &mut [u8])
    requires n_in_bounds { 3 * n ≤ length positions.now }
    requires n_in_bounds_2 { 3 * n ≤ length normals.now }
    requires all_finite { AllFinite positions.now }
    requires all_finite_2 { AllFinite normals.now }
    requires n_in_bounds_3 { 32 * n ≤ length file.old }
    ensures { file.new ≡ laid (each (vertex_record positions.now normals.now) n) 0 file.old }
{
    for k in 0..n {
        write_vertex(positions, normals, 3 * k, file, 32 * k);
    }
}

// The records of all triangles, from a place of the file on.
fn write_triangles(indices: &[u32], file: &mut [u8], at: usize)
    requires { at + 32 * (length indices.now / 3) ≤ length file.old }
    ensures { file.new ≡ laid (each (triangle_record indices.now) (length indices.now / 3)) at file.old }
{
    let (triangles, _) = indices.as_chunks::<3>();
    for (k, [a, b, c]) in triangles.iter().enumerate() {
        write_record(file, at + 32 * k, [2, *a, *b, *c, 0, 0, 0]);
    }
}

// All records of a mesh that the writer accepts, over the start of the lent file.
pub(crate) fn write_all(positions: &[f32], normals: &[f32], indices: &[u32], file: &mut [u8])
    requires { write_answer (mesh positions.now normals.now indices.now) (length file.old) ≡ 0 }
    ensures { file.new ≡ over (file_of (mesh positions.now normals.now indices.now)) file.old }
{
    let v = positions.len() / 3;
    let t = indices.len() / 3;
    write_vertices(positions, normals, v, file);
    write_triangles(indices, file, 32 * v);
    let closing = [3, v as u32, t as u32, 0, 0, 0, 0];
    write_record(file, 32 * v + 32 * t, closing);
}

// ---- the tests before

fn bad_lengths(positions: usize, normals: usize, indices: usize) -> bool
    ensures { result ≡ bad_lengths positions normals indices }
{
    positions % 3 != 0
        || normals % 3 != 0
        || indices % 3 != 0
        || normals != positions
        || 4294967296 <= positions / 3
        || 4294967296 <= indices / 3
}

fn no_vertex(vertices: usize, index: u32) -> bool
    ensures { result ≡ no_vertex vertices index }
{
    vertices <= index as usize
}

fn some_without_vertex(indices: &[u32], vertices: usize) -> bool
    ensures { result ≡ some (no_vertex vertices) indices.now }
{
    indices.iter().any(|index| no_vertex(vertices, *index))
}

fn some_not_finite(xs: &[f32]) -> bool
    ensures { result ≡ some not_finite xs.now }
{
    xs.iter().any(|x| !is_finite(*x))
}

// The length of the file of a mesh that can be written into so much room: 30, 26, 27 and 29, in this order, where it cannot.
#[tactic(auto, unfolding(crate::specs::Writing::write_answer, crate::specs::Writing::writing))]
pub(crate) fn check_mesh(
    positions: &[f32],
    normals: &[f32],
    indices: &[u32],
    room: usize,
) -> Result<usize, Refusal>
    ensures { wrote_result result ≡ writing (mesh positions.now normals.now indices.now) room }
{
    if bad_lengths(positions.len(), normals.len(), indices.len()) {
        return Err(Refusal::BadLists);
    }
    let v = positions.len() / 3;
    let t = indices.len() / 3;
    if some_without_vertex(indices, v) {
        return Err(Refusal::IndexWithoutVertex);
    }
    if some_not_finite(positions) || some_not_finite(normals) {
        return Err(Refusal::FloatNotFinite);
    }
    let bytes = 32 * (v + t + 1);
    if room < bytes {
        return Err(Refusal::ShortRoom);
    }
    Ok(bytes)
}
