// The first wrong edge of all: the x edges, then the y edges, then the z edges.
ghost use Rattle.std.specs.Prelude.{◌≡◌, length};
ghost use Rattle.plan.specs.Plan.{piece};
ghost use Rattle.witness.specs.Witness.{piece_in, Tells, outcome_number};
ghost use Rattle.witness.specs.Told.{words_told, Names};
ghost use Rattle.witness.specs.Steps.{piece_at, Good, Near};

use crate::axis::Axis;
use crate::search::{Wrong, search};
use crate::words::{NoEdge, blocks_of};
use plan::Block;
use plan::as_block::AsBlock;

// In the place of a block's number: none.
const NO_BLOCK: u32 = 4294967295;

fn first_wrong(blocks: &[[u32; 12]], whole: Block) -> Option<Wrong>
    requires { Good blocks.now whole }
    ensures { Names (piece_at blocks.now) (length blocks.now) (piece whole) result }
{
    if let Some(wrong) = search(blocks, whole, Axis::X) {
        return Some(wrong);
    }
    if let Some(wrong) = search(blocks, whole, Axis::Y) {
        return Some(wrong);
    }
    search(blocks, whole, Axis::Z)
}

fn edge_words(wrong: Wrong) -> [u32; 6]
    requires { Near wrong.at }
    ensures { result ≡ words_told wrong }
{
    let at = wrong.at;
    [
        wrong.axis.into(),
        at.x as u32,
        at.y as u32,
        at.z as u32,
        wrong.first.unwrap_or(NO_BLOCK),
        wrong.second.unwrap_or(NO_BLOCK),
    ]
}

// The edge told: its axis, 0, 1 or 2, its lowest point, and the numbers of the first and the second block that own it, 4,294,967,295 for none. Where none is
// told, nothing is changed.
pub fn plan_witness(words: &[u32], whole: &[u32; 12], edge: &mut [u32; 6]) -> Result<(), NoEdge>
    ensures { Tells words.now (piece_in whole.now 0) (outcome_number result) edge.old edge.new }
{
    let whole = whole.block();
    let blocks = blocks_of(words, whole)?;
    let wrong = first_wrong(blocks, whole).ok_or(NoEdge::Planned)?;
    *edge = edge_words(wrong);
    Ok(())
}
