// Mesh files for C and Rust (document 02, request 2): thin functions over mesh_file and, for one record, mesh_record. The file is lent memory; include/bed.h says the rest.
ghost use Rattle.std.specs.Prelude.{◌≡◌, [], ◌∷◌, length};
ghost use Rattle.mesh_record.specs.Refusal.{answer_of};
ghost use Rattle.mesh_record.specs.Written.{record_answer, record_written};
ghost use Rattle.mesh_file.specs.Mesh.{mesh, Held};
ghost use Rattle.mesh_file.specs.Writing.{writing, written};
ghost use Rattle.mesh_file.specs.Reading.{Bytes, read_result, read_of, checked, reading_in, filled_in};

use mesh_file::{Counts, Refusal};

// The answer's number: 0, or that of the refusal.
fn answer<T: Drop>(outcome: Result<T, Refusal>) -> u32
    ensures { result ≡ answer_of outcome }
{
    match outcome {
        Ok(_) => 0,
        Err(refusal) => refusal.into(),
    }
}

// The same of a mesh, with its counts behind C's pointers: 0 where it was refused.
fn answer_with_counts(
    read: Result<Counts, Refusal>,
    vertex_count: &mut u64,
    triangle_count: &mut u64,
) -> u32
    ensures value { result ≡ (read_result read).answer }
    ensures vertex_count_after { vertex_count.new ≡ (read_result read).vertices }
    ensures triangle_count_after { triangle_count.new ≡ (read_result read).triangles }
{
    let counts = read.unwrap_or_default();
    *vertex_count = counts.vertices as u64;
    *triangle_count = counts.triangles as u64;
    answer(read)
}

#[unsafe(no_mangle)]
pub extern "C" fn bed_write_mesh(
    positions: &[f32],
    normals: &[f32],
    indices: &[u32],
    file: &mut [u8],
    byte_count: &mut u64,
) -> u32
    ensures value { result ≡ (writing (mesh positions.now normals.now indices.now) (length file.old)).answer }
    ensures file_after { file.new ≡ written (mesh positions.now normals.now indices.now) file.old }
    ensures byte_count_after { byte_count.new ≡ (writing (mesh positions.now normals.now indices.now) (length file.old)).bytes }
    ensures held { Held (mesh positions.now normals.now indices.now) }
{
    let wrote = mesh_file::write_mesh(positions, normals, indices, file);
    *byte_count = wrote.unwrap_or(0) as u64;
    answer(wrote)
}

// One record, its seven words and their sum, at a place of the lent bytes: 0, or 29 where it would end past them.
#[unsafe(no_mangle)]
pub extern "C" fn bed_write_record(
    file: &mut [u8],
    at: u64,
    kind: u32,
    a: u32,
    b: u32,
    c: u32,
    d: u32,
    e: u32,
    f: u32,
) -> u32
    ensures value { result ≡ record_answer at file.old }
    ensures file_after { file.new ≡ record_written (kind ∷ a ∷ b ∷ c ∷ d ∷ e ∷ f ∷ []) at file.old }
{
    let words = [kind, a, b, c, d, e, f];
    answer(mesh_record::put_record(file, at as usize, words))
}

#[unsafe(no_mangle)]
pub extern "C" fn bed_read_mesh(
    file: &[u8],
    positions: &mut [f32],
    normals: &mut [f32],
    indices: &mut [u32],
    vertex_count: &mut u64,
    triangle_count: &mut u64,
) -> u32
    ensures value { result ≡ (reading_in (read_of file.now) (mesh positions.old normals.old indices.old)).answer }
    ensures indices_after { mesh positions.new normals.new indices.new
        ≡ filled_in file.now (read_of file.now) (mesh positions.old normals.old indices.old) }
    ensures vertex_count_after { vertex_count.new ≡ (reading_in (read_of file.now) (mesh positions.old normals.old indices.old)).vertices }
    ensures triangle_count_after { triangle_count.new ≡ (reading_in (read_of file.now) (mesh positions.old normals.old indices.old)
        ).triangles }
    ensures bytes { Bytes file.now }
{
    let read = mesh_file::read_mesh(file, positions, normals, indices);
    answer_with_counts(read, vertex_count, triangle_count)
}

// The answer and the counts of a whole file, with no list lent: what to lend for `bed_read_mesh`.
#[unsafe(no_mangle)]
pub extern "C" fn bed_check_mesh(
    file: &[u8],
    vertex_count: &mut u64,
    triangle_count: &mut u64,
) -> u32
    ensures value { result ≡ (checked (read_of file.now)).answer }
    ensures vertex_count_after { vertex_count.new ≡ (checked (read_of file.now)).vertices }
    ensures triangle_count_after { triangle_count.new ≡ (checked (read_of file.now)).triangles }
    ensures bytes { Bytes file.now }
{
    let found = mesh_file::check_file(file);
    answer_with_counts(found, vertex_count, triangle_count)
}
