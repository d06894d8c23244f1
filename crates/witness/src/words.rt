// Blocks as words, twelve each, and why no edge is told.
ghost use Rattle.std.specs.Prelude.{◌≡◌, IfOk};
ghost use Rattle.std.specs.Simd.{first_chunks};
ghost use Rattle.plan.specs.Plan.{piece};
ghost use Rattle.witness.specs.declared.words.NoEdge.TheVariants.{Refused};
ghost use Rattle.witness.specs.Witness.{count_in, refusal, reason_number, outcome_number};

use plan::Block;
use plan::refusal::{Refusal, accept};

// Why no edge is told, by the answer numbers 40, 41 or 42, and 43: the words are not in twelves, the plan is refused, or the blocks are a plan.
#[derive(Clone, Copy, Debug, PartialEq, Eq)]
pub enum NoEdge {
    NotInTwelves,
    Refused(Refusal),
    Planned,
}

impl From<Refusal> for NoEdge {
    ghost from_gives = { λ why reason. reason ≡ Refused why };

    fn from(why: Refusal) -> NoEdge {
        NoEdge::Refused(why)
    }
}

impl From<NoEdge> for u32 {
    ghost from_gives = { λ reason number. number ≡ reason_number reason };

    fn from(reason: NoEdge) -> u32 {
        match reason {
            NoEdge::NotInTwelves => 40,
            NoEdge::Refused(why) => why.into(),
            NoEdge::Planned => 43,
        }
    }
}

// The blocks of the words, or 40, 41 or 42.
pub(crate) fn blocks_of(words: &[u32], whole: Block) -> Result<&[[u32; 12]], NoEdge>
    ensures number { outcome_number result ≡ refusal words.now (piece whole) }
    ensures blocks { IfOk result (λ blocks. blocks.now ≡ first_chunks 12 (count_in words.now) words.now) }
{
    let (blocks, rest) = words.as_chunks::<12>();
    if !rest.is_empty() {
        return Err(NoEdge::NotInTwelves);
    }
    accept(blocks, whole)?;
    Ok(blocks)
}
