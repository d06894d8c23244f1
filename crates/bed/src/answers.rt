// What the mesher answers, for C: document 01's number, with V and I behind two of the caller's words.
ghost use Rattle.std.specs.Prelude.{◌≡◌};
ghost use Rattle.judge.specs.AsRules.{answer_of};
ghost use Rattle.bed.specs.Boundary.{said};

use judge::{Refusal, Tally};

pub(crate) fn tell(
    answer: Result<Tally, Refusal>,
    vertex_count: &mut u64,
    index_count: &mut u64,
) -> u32
    ensures { said result vertex_count.new index_count.new ≡ answer_of answer }
{
    let (number, counts) = judge::numbers(answer);
    *vertex_count = counts.vertices as u64;
    *index_count = counts.indices as u64;
    number
}
