// Meshes as files that survive a power cut (document 02, request 2): 32-byte records, each with the sum of its words, and a closing
// record. The writer and the reader check everything before they write anything.
#![tactic(auto)]

mod fills;
mod writer;

ghost use Rattle.std.specs.Prelude.{◌≡◌, length, drop};
ghost use Rattle.mesh_file.specs.Mesh.{mesh, Held};
ghost use Rattle.mesh_file.specs.Reading.{Bytes, numbers_of, found_at, read_result, checked, read_of, reading_with, reading_in, filled_in};
ghost use Rattle.mesh_file.specs.Writing.{wrote_result, writing, written};

use fills::fill_all;
use mesh_record::step_at;
pub use mesh_record::{Counts, Refusal, Step};
use writer::{check_mesh, write_all};

// ---- the whole file

// Every record of the file in turn, until one is refused or closes it.
fn check_all(src: &[u8]) -> Result<Counts, Refusal>
    ensures { read_result result ≡ checked (read_of src.now) }
{
    let mut counts = Counts {
        vertices: 0,
        triangles: 0,
    };
    let mut at = 0;
    loop {
        match step_at(src, at, counts)? {
            Step::Vertex => counts.vertices += 1,
            Step::Triangle => counts.triangles += 1,
            Step::Closed => return Ok(counts),
        }
        at += 32;
    }
}

fn check_from(src: &[u8], at: usize) -> Result<Counts, Refusal>
    ensures { read_result result ≡ checked (read_of (drop at src.now)) }
{
    if src.len() < at {
        return Err(Refusal::CutFile);
    }
    check_all(&src[at..])
}

// ---- the reader: the lent file and its place, nothing else

#[derive(Clone, Copy, Debug)]
pub struct Reader<'a> {
    pub src: &'a [u8],
    pub at: usize,
}

impl<'a> Reader<'a> {
    // At the start of a file.
    pub fn new(src: &'a [u8]) -> Reader<'a>
        ensures { (result.src ≡ src.entry) × (result.at ≡ 0) }
    {
        Reader { src, at: 0 }
    }

    // At another place of the same file: a record's successor is 32 bytes further.
    pub fn moved(self, at: usize) -> Reader<'a>
        ensures { (result.src ≡ self.entry.src) × (result.at ≡ at) }
    {
        Reader { src: self.src, at }
    }

    // The record at its place, after so many vertices and triangles.
    pub fn next(self, seen: Counts) -> Result<Step, Refusal>
        ensures { numbers_of result ≡ found_at self.entry.src.now self.entry.at seen }
    {
        step_at(self.src, self.at, seen)
    }

    // All records from its place on.
    pub fn check(self) -> Result<Counts, Refusal>
        ensures { read_result result ≡ checked (read_of (drop self.entry.at self.entry.src.now)) }
    {
        check_from(self.src, self.at)
    }
}

// A whole file, for callers that hold no reader.
pub fn check_file(file: &[u8]) -> Result<Counts, Refusal>
    ensures { read_result result ≡ checked (read_of file.now) }
{
    Reader::new(file).check()
}

// The counts of a file that can be read into lists of these lengths: its own refusal, or 29 where it is whole and one list is too short.
fn check_room(
    file: &[u8],
    positions: usize,
    normals: usize,
    indices: usize,
) -> Result<Counts, Refusal>
    ensures { read_result result ≡ reading_with (read_of file.now) positions normals indices }
{
    let counts = check_file(file)?;
    if positions / 3 < counts.vertices {
        return Err(Refusal::ShortRoom);
    }
    if normals / 3 < counts.vertices {
        return Err(Refusal::ShortRoom);
    }
    if indices / 3 < counts.triangles {
        return Err(Refusal::ShortRoom);
    }
    Ok(counts)
}

// ---- the writer

// Writes the file of a mesh over the start of the lent one, and counts its bytes. Refusals 30, 26, 27 and 29, in this order, write nothing.
pub fn write_mesh(
    positions: &[f32],
    normals: &[f32],
    indices: &[u32],
    file: &mut [u8],
) -> Result<usize, Refusal>
    ensures value { wrote_result result ≡ writing (mesh positions.now normals.now indices.now) (length file.old) }
    ensures file_after { file.new ≡ written (mesh positions.now normals.now indices.now) file.old }
    ensures held { Held (mesh positions.now normals.now indices.now) }
{
    let bytes = check_mesh(positions, normals, indices, file.len())?;
    write_all(positions, normals, indices, file);
    Ok(bytes)
}

// ---- the reader's answer

// Reads the mesh of a file into the lent lists, and counts it. A refusal writes nothing.
pub fn read_mesh(
    file: &[u8],
    positions: &mut [f32],
    normals: &mut [f32],
    indices: &mut [u32],
) -> Result<Counts, Refusal>
    ensures value { read_result result ≡ reading_in (read_of file.now) (mesh positions.old normals.old indices.old) }
    ensures indices_after { mesh positions.new normals.new indices.new
        ≡ filled_in file.now (read_of file.now) (mesh positions.old normals.old indices.old) }
    ensures bytes { Bytes file.now }
{
    let counts = check_room(file, positions.len(), normals.len(), indices.len())?;
    fill_all(file, counts, positions, normals, indices);
    Ok(counts)
}
