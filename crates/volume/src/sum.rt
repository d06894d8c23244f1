// A triangle's determinant, and the sum over all triangles.
ghost use Rattle.std.specs.Prelude.{◌≡◌, false, ◌+◌, ◌*◌, ◌/◌, ◌%◌, ◌^◌, ◌≤◌, nat_abs, length};
ghost use Rattle.lists.specs.Lists.{some};
ghost use Rattle.volume.specs.Steps.{outside};
ghost use Rattle.volume.specs.Volume.{Near, corner_at, falling, rising, determinant, sixfold};
ghost use Rattle.volume.specs.Answers.{no_vertex};

use crate::Corner;
use crate::steps::corner_at;

// ---- one triangle

fn product(a: u64, b: u64, c: u64) -> u64
    requires a_bound { a ≤ 2 ^ 15 }
    requires b_bound { b ≤ 2 ^ 15 }
    requires c_bound { c ≤ 2 ^ 15 }
    ensures value { result ≡ a * b * c }
    ensures upper_bound { result ≤ 2 ^ 45 }
{
    a * b * c
}

fn determinant(a: Corner, b: Corner, c: Corner) -> i64
    requires near { Near a }
    requires near_2 { Near b }
    requires near_3 { Near c }
    ensures { result ≡ determinant a b c }
{
    let falling = product(a.x, b.y, c.z) + product(a.y, b.z, c.x) + product(a.z, b.x, c.y);
    let rising = product(a.x, b.z, c.y) + product(a.y, b.x, c.z) + product(a.z, b.y, c.x);
    falling as i64 - rising as i64
}

#[tactic(auto, using(crate::proofs::Corners::all_within, crate::proofs::Corners::near_corner))]
fn triangle(positions: &[f32], a: usize, b: usize, c: usize) -> i64
    requires a_in_bounds { 3 * a + 3 ≤ length positions.now }
    requires b_in_bounds { 3 * b + 3 ≤ length positions.now }
    requires c_in_bounds { 3 * c + 3 ≤ length positions.now }
    requires positions_value { some outside positions.now ≡ false }
    ensures value { result ≡ determinant (corner_at positions.now a) (corner_at positions.now b) (corner_at positions.now c) }
    ensures result_bound { nat_abs result ≤ 2 ^ 46 }
{
    determinant(
        corner_at(positions, a),
        corner_at(positions, b),
        corner_at(positions, c),
    )
}

// ---- all of them

#[tactic(auto, using(crate::proofs::Corners::vertex_in_chunk))]
pub(crate) fn sum_over(positions: &[f32], indices: &[u32]) -> i64
    requires indices_len { length indices.now % 3 ≡ 0 }
    requires indices_len_bound { length indices.now / 3 ≤ 16384 }
    requires positions_value { some outside positions.now ≡ false }
    requires indices_value { some (no_vertex (length positions.now / 3)) indices.now ≡ false }
    ensures { result ≡ sixfold positions.now indices.now }
{
    let (triangles, _) = indices.as_chunks::<3>();
    let mut sum: i64 = 0;
    for &[a, b, c] in triangles {
        sum += triangle(positions, a as usize, b as usize, c as usize);
    }
    sum
}
