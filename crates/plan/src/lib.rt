// Document 02, request 10: whether a list of blocks is a plan of a tank, "yes exactly if every edge the whole owns is owned by exactly one block
// and no block owns any other edge". No edge is visited: of each axis the edges that a block owns are a box of points, and blocks plan the
// whole exactly if each of those boxes lies in the whole's, no two meet, and their sizes add up.
#![tactic(auto)]

pub mod as_block;
mod cover;
pub mod refusal;
pub mod region;
mod size;
pub mod triple;

ghost use Rattle.std.specs.Prelude.{map};
ghost use Rattle.plan.specs.Plan.{Checks, piece, answer_number, is_yes};

use crate::refusal::Refusal;

// A box between two corners, with the max plane's flags. C hands them over, 28 bytes each.
#[repr(C)]
#[derive(Clone, Copy, Debug, PartialEq, Eq)]
pub struct Block {
    pub min_x: u32,
    pub min_y: u32,
    pub min_z: u32,
    pub max_x: u32,
    pub max_y: u32,
    pub max_z: u32,
    pub max_plane_x: bool,
    pub max_plane_y: bool,
    pub max_plane_z: bool,
}

// The yes or no, or a refusal. Every block is looked at before a no, since a refusal comes before it.
pub fn check_plan(blocks: &[Block], whole: Block) -> Result<bool, Refusal>
    ensures { Checks (map piece blocks.now) (piece whole) (answer_number result) (is_yes result) }
{
    refusal::accept(blocks, whole)?;
    Ok(cover::covers_once(blocks, whole))
}
