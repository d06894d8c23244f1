// The lent lists, filled from the records of a file that was checked before.
ghost use Rattle.std.specs.Prelude.{◌≡◌, ℕ, ◌+◌, ◌*◌, ◌<◌, ◌≤◌, T, length};
ghost use Rattle.std.specs.Float.{binary32};
ghost use Rattle.std.specs.Float.Ieee.{of_bits};
ghost use Rattle.mesh_file.specs.Record.{each, laid};
ghost use Rattle.mesh_file.specs.Mesh.{mesh};
ghost use Rattle.mesh_file.specs.Reading.{finite_bits, three_at, ThreeHold, whole, read_of, mesh_in, over_mesh};

use mesh_record::{Counts, word_at};

// What a list of a mesh holds, as a word of a record stores it: a float by its bits, an index as it is.
trait Stored: Copy {
    ghost is_stored: { ℕ → Type 0 };

    ghost of_word: { ℕ → Self };

    fn of_word(word: u32) -> Self
        requires { is_stored word }
        ensures { result ≡ of_word word };
}

impl Stored for f32 {
    ghost is_stored = { λ word. T (finite_bits word) };

    ghost of_word = { of_bits binary32 };

    fn of_word(word: u32) -> f32 {
        f32::from_bits(word)
    }
}

impl Stored for u32 {
    ghost is_stored = { λ _. Unit {0} };

    ghost of_word = { λ word. word };

    fn of_word(word: u32) -> u32 {
        word
    }
}

// Three numbers of each of n records, from the place `first` on.
fn fill<S: Stored>(file: &[u8], first: usize, n: usize, out: &mut [S])
    requires in_file { 32 * n + first ≤ length file.now + 20 }
    requires in_list { 3 * n ≤ length out.old }
    requires stored { (k : ℕ) → k < n → ThreeHold S.is_stored file.now (32 * k + first) }
    ensures { out.new ≡ laid (each (λ k. three_at S.of_word file.now (32 * k + first)) n) 0 out.old }
{
    for k in 0..n {
        let at = 32 * k + first;
        let three = [
            S::of_word(word_at(file, at)),
            S::of_word(word_at(file, at + 4)),
            S::of_word(word_at(file, at + 8)),
        ];
        out[3 * k..3 * k + 3].copy_from_slice(&three);
    }
}

// The mesh of a whole file, over the starts of the three lent lists.
pub(crate) fn fill_all(
    file: &[u8],
    counts: Counts,
    positions: &mut [f32],
    normals: &mut [f32],
    indices: &mut [u32],
)
    requires file_value { read_of file.now ≡ whole counts.vertices counts.triangles }
    requires positions_long { 3 * counts.vertices ≤ length positions.old }
    requires normals_long { 3 * counts.vertices ≤ length normals.old }
    requires indices_long { 3 * counts.triangles ≤ length indices.old }
    ensures { mesh positions.new normals.new indices.new
        ≡ over_mesh (mesh_in file.now counts.vertices counts.triangles) (mesh positions.old normals.old indices.old) }
{
    fill(file, 4, counts.vertices, positions);
    fill(file, 16, counts.vertices, normals);
    fill(file, 32 * counts.vertices + 4, counts.triangles, indices);
}
