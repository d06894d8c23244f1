// One vertex of the lists lent, and the sums over all triangles.
ghost use Rattle.std.specs.Prelude.{◌≡◌, ◌+◌, ◌*◌, ◌/◌, ◌%◌, ◌^◌, ◌≤◌, false, cond, ◌||◌, length, nat_le, nat_lt};
ghost use Rattle.lists.specs.Lists.{some};
ghost use Rattle.weigh.specs.Sums.{corner_from, pillars, shadows};
ghost use Rattle.weigh.specs.Answers.{beyond, no_vertex, some_without, some_wide, refuses, says, told_by};
ghost use Rattle.weigh.specs.Biased.{Low};

use crate::total::Total;
use crate::triangle::is_wide;
use crate::{Refusal, Weight};
use volume::Corner;
use volume::steps::corner_at;

// The vertex v, where the positions begin with those of the vertex `first`.
#[tactic(auto, using(crate::proofs::Answering::has_vertex, crate::proofs::Corners::low_corner))]
fn corner_from(positions: &[f32], first: u32, v: u32) -> Corner
    requires v_value { no_vertex first (length positions.now / 3) v ≡ false }
    requires positions_value { some beyond positions.now ≡ false }
    ensures value { result ≡ corner_from positions.now first v }
    ensures low { Low result }
{
    corner_at(positions, (v - first) as usize)
}

#[tactic(auto, using(volume::proofs::Corners::none_in_chunk))]
pub(crate) fn sum_over(positions: &[f32], first: u32, indices: &[u32]) -> Result<Weight, Refusal>
    requires indices_len { length indices.now % 3 ≡ 0 }
    requires indices_len_bound { length indices.now / 3 ≤ 2 ^ 33 }
    requires positions_value { some beyond positions.now ≡ false }
    requires indices_value { some_without positions.now first indices.now ≡ false }
    ensures { told_by result ≡ cond (some_wide (corner_from positions.now first) indices.now) (refuses 76)
        (says 0 (pillars positions.now first indices.now) (shadows positions.now first indices.now)) }
{
    let (triangles, _) = indices.as_chunks::<3>();
    let mut total = Total::default();
    for &[i, j, k] in triangles {
        let a = corner_from(positions, first, i);
        let b = corner_from(positions, first, j);
        let c = corner_from(positions, first, k);
        if is_wide(a, b, c) {
            return Err(Refusal::Wide);
        }
        total = total.with(a, b, c);
    }
    Ok(total.without_bias(triangles.len() as u64))
}
