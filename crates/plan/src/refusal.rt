// The refusals, 41 and 42, in their order.
ghost use Rattle.std.specs.Prelude.{◌≡◌, map};
ghost use Rattle.std.specs.List.{list_any};
ghost use Rattle.plan.specs.Plan.{piece, bad_side, bad_block, plan_answer, refusal_number, answer_number};

use crate::Block;
use crate::as_block::AsBlock;

// Why a list of blocks is not checked: it has over 200, or it or the whole has a bad box.
#[derive(Clone, Copy, Debug, PartialEq, Eq)]
pub enum Refusal {
    TooMany,
    BadBox,
}

impl From<Refusal> for u32 {
    ghost from_gives = { λ why number. number ≡ refusal_number why };

    fn from(why: Refusal) -> u32 {
        match why {
            Refusal::TooMany => 41,
            Refusal::BadBox => 42,
        }
    }
}

pub(crate) fn bad_side(low: u32, high: u32) -> bool
    ensures { result ≡ bad_side low high }
{
    (high < low) | ((16777216 < low) | (16777216 < high))
}

// Answer 42: "min above max on an axis or a coordinate above 16,777,216".
#[tactic(auto, unfolding(crate::specs::Plan::bad_piece))]
pub fn bad_block(b: Block) -> bool
    ensures { result ≡ bad_block b }
{
    bad_side(b.min_x, b.max_x) | (bad_side(b.min_y, b.max_y) | bad_side(b.min_z, b.max_z))
}

fn some_bad<B: AsBlock>(blocks: &[B]) -> bool
    ensures { result ≡ list_any (λ b. bad_block (B.block_of b)) blocks.now }
{
    blocks.iter().any(|b| bad_block(b.block()))
}

// 41, then 42 of the whole or of a block.
pub fn accept<B: AsBlock>(blocks: &[B], whole: Block) -> Result<(), Refusal>
    ensures { answer_number result ≡ plan_answer (map (λ b. piece (B.block_of b)) blocks.now) (piece whole) }
{
    if 200 < blocks.len() {
        return Err(Refusal::TooMany);
    }
    if bad_block(whole) || some_bad(blocks) {
        return Err(Refusal::BadBox);
    }
    Ok(())
}
