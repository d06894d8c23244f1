// Document 02, request 14: six times the signed volume of a mesh, in steps of 1/256, from its positions and triangles alone.
#![tactic(auto)]

pub mod asked;
pub mod steps;
mod sum;

ghost use Rattle.std.specs.Prelude.{◌≡◌};
ghost use Rattle.lists.specs.Lists.{some};
ghost use Rattle.volume.specs.Steps.{outside};
ghost use Rattle.volume.specs.Answers.{number_of, told_by, weighing};

use asked::{has_more_triangles, not_in_threes, some_past, some_without_vertex};
use sum::sum_over;

// Why a mesh has no volume.
#[derive(Clone, Copy, Debug, PartialEq, Eq)]
pub enum Refusal {
    // the positions or the indices are not in threes
    NotThrees,
    // more than 16,384 triangles
    TooMany,
    // a coordinate is not finite or not from 0 to 128
    Outside,
    // an index has no vertex
    NoVertex,
}

// The number of each, as C has it.
impl From<Refusal> for u32 {
    ghost from_gives = { λ refusal number. number ≡ number_of refusal };

    fn from(refusal: Refusal) -> u32 {
        match refusal {
            Refusal::NotThrees => 61,
            Refusal::TooMany => 62,
            Refusal::Outside => 63,
            Refusal::NoVertex => 64,
        }
    }
}

// A vertex in steps.
#[derive(Clone, Copy, Debug, PartialEq, Eq)]
pub struct Corner {
    pub x: u64,
    pub y: u64,
    pub z: u64,
}

fn some_outside(positions: &[f32]) -> bool
    ensures { result ≡ some outside positions.now }
{
    some_past(positions, 128.0)
}

// Six times the volume.
#[tactic(auto, unfolding(crate::specs::Answers::weighing))]
pub fn volume(positions: &[f32], indices: &[u32]) -> Result<i64, Refusal>
    ensures { told_by result ≡ weighing positions.now indices.now }
{
    if not_in_threes(positions, indices) {
        return Err(Refusal::NotThrees);
    }
    if has_more_triangles(indices, 16384) {
        return Err(Refusal::TooMany);
    }
    if some_outside(positions) {
        return Err(Refusal::Outside);
    }
    if some_without_vertex(indices, 0, positions.len() / 3) {
        return Err(Refusal::NoVertex);
    }
    Ok(sum_over(positions, indices))
}
