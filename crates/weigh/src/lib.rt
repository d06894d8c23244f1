// Weighing a mesh of any size that the mesher makes, in document 02 request 14's steps of 1/256: the volume that stands between the triangles and the plane
// z = 0, and the area seen from above. The terms are small where no triangle is wide, so that no count but 2^33 bounds the list.
#![tactic(auto)]

mod sum;
mod total;
mod triangle;

ghost use Rattle.std.specs.Prelude.{◌≡◌};
ghost use Rattle.lists.specs.Lists.{some};
ghost use Rattle.weigh.specs.Answers.{beyond, number_of, told_by, weight};

use sum::sum_over;
use volume::asked::{has_more_triangles, not_in_threes, some_past, some_without_vertex};

// Why a mesh is not weighed.
#[derive(Clone, Copy, Debug, PartialEq, Eq)]
pub enum Refusal {
    // the positions or the indices are not in threes
    NotThrees,
    // a coordinate is not finite or not from 0 to 16,777,216
    Beyond,
    // an index has no vertex among those lent
    NoVertex,
    // more than 2^33 triangles
    TooMany,
    // a triangle's second or third corner is more than 512 steps from its first in x or in y
    Wide,
}

// The number of each, as C has it.
impl From<Refusal> for u32 {
    ghost from_gives = { λ refusal number. number ≡ number_of refusal };

    fn from(refusal: Refusal) -> u32 {
        match refusal {
            Refusal::NotThrees => 61,
            Refusal::Beyond => 63,
            Refusal::NoVertex => 64,
            Refusal::TooMany => 75,
            Refusal::Wide => 76,
        }
    }
}

// The sum, high · 2^64 + low; twice the area seen from above.
#[derive(Clone, Copy, Debug, PartialEq, Eq, Default)]
pub struct Weight {
    pub low: u64,
    pub high: i64,
    pub shadow: i64,
}

fn some_beyond(positions: &[f32]) -> bool
    ensures { result ≡ some beyond positions.now }
{
    some_past(positions, 16777216.0)
}

// `first` is the number of the first vertex lent.
#[tactic(auto, unfolding(crate::specs::Answers::weight))]
pub fn weigh(positions: &[f32], first: u32, indices: &[u32]) -> Result<Weight, Refusal>
    ensures { told_by result ≡ weight positions.now first indices.now }
{
    if not_in_threes(positions, indices) {
        return Err(Refusal::NotThrees);
    }
    if some_beyond(positions) {
        return Err(Refusal::Beyond);
    }
    if some_without_vertex(indices, first, first as usize + positions.len() / 3) {
        return Err(Refusal::NoVertex);
    }
    if has_more_triangles(indices, 8589934592) {
        return Err(Refusal::TooMany);
    }
    sum_over(positions, first, indices)
}
